// A drawing file made anew: what the writer makes of a file's candidate is the file itself.
#![tactic(auto)]

ghost use Rattle.std.specs.Prelude.{◌≤◌, length};
ghost use Rattle.model.specs.Limits.{store_length};
ghost use Rattle.writer.specs.Saves.{Told};
ghost use Rattle.copyist.specs.Copies.{copy_check};

use drawing::Drawing;
use model::limits::STORE_LENGTH;
use model::refusals::Refusal;

// Writes the file of an open drawing's candidate, whose relations go to the store.
fn copy_good(drawing: Drawing, store: &mut [u64], out: &mut [u8]) -> Result<usize, Refusal>
    requires { store_length ≤ length store.old }
    ensures { Told (copy_check drawing.entry.file.now (length out.old)) drawing.entry.file.now out.old result out.new }
{
    let head = drawing.head();
    let list = drawing.actions();
    let places = drawing.places();
    drawing.fill(store);
    lender::save_first(list, head.n, places, head, store, out)
}

// Writes the file of the candidate that a file of any bytes holds.
pub fn copy(file: &[u8], out: &mut [u8]) -> Result<usize, Refusal>
    ensures { Told (copy_check file.now (length out.old)) file.now out.old result out.new }
{
    let drawing = Drawing::open(file)?;
    let mut store = [0u64; STORE_LENGTH];
    copy_good(drawing, &mut store, out)
}
