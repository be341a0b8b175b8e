// What the judge says of a machine: its candidate drawn into a lent store and judged by the second door; and its drawing file.
#![tactic(auto)]

ghost use Rattle.std.specs.Prelude.{◌≤◌, length};
ghost use Rattle.model.specs.Limits.{store_length};
ghost use Rattle.machine.specs.Code.{state_of};
ghost use Rattle.console.specs.Consoles.{JudgesMachine, PassesMachine, SavesMachine};

use machine::Machine;
use machine::candidates::{draw, list};
use model::Judged;
use model::limits::{ORDER_LENGTH, STORE_LENGTH};
use model::refusals::{Reason, Refusal};

// Judges the candidate of a machine.
pub fn judge(m: Machine, store: &mut [u64], order: &mut [u8]) -> Result<Judged, Refusal>
    ensures judges_machine { JudgesMachine (state_of m) store.old order.old result store.new order.new }
    ensures passes_machine { PassesMachine (state_of m) store.old order.old result }
{
    if order.len() < ORDER_LENGTH {
        return Err(Refusal {
            reason: Reason::ShortBuffer,
            at: 0,
        });
    }
    draw(m, store)?;
    let x = list(m);
    let acts = x.acts;
    let places = x.places;
    lender::judge_first(acts, x.head.n, &places[..x.head.p], x.head, store, order)
}

// Writes the drawing file of a machine's candidate, whose relations go to the store.
fn save_with(m: Machine, store: &mut [u64], out: &mut [u8]) -> Result<usize, Refusal>
    requires { store_length ≤ length store.old }
    ensures { SavesMachine (state_of m) out.old result out.new }
{
    draw(m, store)?;
    let x = list(m);
    let acts = x.acts;
    let places = x.places;
    lender::save_first(acts, x.head.n, &places[..x.head.p], x.head, store, out)
}

// Writes the drawing file of a machine's candidate.
pub fn save(m: Machine, out: &mut [u8]) -> Result<usize, Refusal>
    ensures { SavesMachine (state_of m) out.old result out.new }
{
    let mut store = [0u64; STORE_LENGTH];
    save_with(m, &mut store, out)
}
