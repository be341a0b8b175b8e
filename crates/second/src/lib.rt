// The second door: a candidate whose actions are a lent list of records, with relations 0 to 6 already in the store.
#![tactic(auto)]

ghost use Rattle.std.specs.Prelude.{◌≡◌, ℕ, ◌<◌, ◌≤◌, length};
ghost use Rattle.model.specs.Limits.{most_actions, order_length};
ghost use Rattle.model.specs.Refusals.{Passed};
ghost use Rattle.words.specs.Sheet.{Sheet, Small};
ghost use Rattle.judge.specs.Answers.{Settles};
ghost use Rattle.lists.specs.Lists.{action_at, counted_check, list_candidate};
ghost use Rattle.second.specs.Door.{Door};

use judge::Seen;
use lists::Gathered;
use model::limits::{MOST_ACTIONS, ORDER_LENGTH, STORE_LENGTH};
use model::refusals::{Reason, Refusal};
use model::{Action, Header, Judged};

// The sheet of the n actions.
pub fn sheet_of(list: [Action; MOST_ACTIONS], places: &[u8], n: usize) -> [u64; words::SHEET_LENGTH]
    requires { (n ≤ most_actions) × ((i : ℕ) → i < n → Small (action_at list i)) }
    ensures { Sheet n list places.now result }
{
    let mut sheet = [1u64; words::SHEET_LENGTH];
    for i in 0..n {
        let x = list[i];
        let q = words::place_kind(places, x.place);
        words::enter(&mut sheet, i, x, q);
    }
    sheet
}

// Judges a list that passed the check.
fn judge_good(g: Gathered, places: &[u8], head: Header, store: &mut [u64], order: &mut [u8]) -> Seen
    requires { (counted_check g.list g.count places.now head.edition head.n head.t head.p store.old ≡ Passed) × (order_length ≤ length order.old) }
    ensures { Settles (list_candidate g.list places.now head.edition head.n head.t head.p store.old) store.old store.new order.old order.new result }
{
    let sheet = sheet_of(g.list, places, head.n);
    judge::judge_sheet(
        &sheet,
        &mut store[..STORE_LENGTH],
        order,
        head.edition,
        head.n,
    )
}

// The second door: judges a lent list of actions at places of these kinds, with relations 0 to 6 in the store.
pub fn judge_list(
    acts: &[Action],
    places: &[u8],
    head: Header,
    store: &mut [u64],
    order: &mut [u8],
) -> Result<Judged, Refusal>
    ensures { Door acts.now places.now head.edition head.n head.t head.p store.old order.old result store.new order.new }
{
    if order.len() < ORDER_LENGTH {
        return Err(Refusal {
            reason: Reason::ShortBuffer,
            at: 0,
        });
    }
    let g = lists::gather(acts);
    lists::checks::check(g, places, store, head)?;
    Ok(judge_good(g, places, head, store, order).judged)
}
