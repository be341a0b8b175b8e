// A drawing file without rf, sc and mo completed: the file of the first candidate that is passed.
#![tactic(auto)]

ghost use Rattle.std.specs.Prelude.{◌≡◌, ◌≤◌, length};
ghost use Rattle.model.specs.Limits.{store_length};
ghost use Rattle.drawing.specs.Files.{candidate_of};
ghost use Rattle.completer.specs.Completes.{complete_check, completed_by, out_by};

use choices::Outcome;
use drawing::Drawing;
use model::limits::STORE_LENGTH;
use model::refusals::Refusal;

// A file was made, with the number of candidates judged and its length; or not, since none of the list is passed or the budget did not cover it.
#[derive(Clone, Copy, PartialEq, Eq)]
pub enum Completion {
    Made { judged: u64, length: usize },
    None { judged: u64 },
    Undecided { judged: u64 },
}

// Completes an open drawing, whose relations go to the store.
fn complete_good(
    drawing: Drawing,
    store: &mut [u64],
    budget: u64,
    out: &mut [u8],
) -> Result<Completion, Refusal>
    requires { store_length ≤ length store.old }
    ensures value { result ≡ completed_by (complete_check drawing.entry.file.now) (candidate_of drawing.entry.file.now) budget (length out.old) }
    ensures out_after { out.new ≡ out_by (complete_check drawing.entry.file.now) (candidate_of drawing.entry.file.now) budget out.old }
{
    let head = drawing.head();
    let list = drawing.actions();
    let places = drawing.places();
    drawing.fill(store);
    let outcome = lender::find_first(list, head.n, places, head, store, budget)?;
    match outcome {
        Outcome::None { judged } => Ok(Completion::None { judged }),
        Outcome::Undecided { judged } => Ok(Completion::Undecided { judged }),
        Outcome::Found { judged } => {
            let length = lender::save_first(list, head.n, places, head, store, out)?;
            Ok(Completion::Made { judged, length })
        }
    }
}

// Completes the drawing that a file of any bytes holds, within the budget.
pub fn complete(file: &[u8], budget: u64, out: &mut [u8]) -> Result<Completion, Refusal>
    ensures value { result ≡ completed_by (complete_check file.now) (candidate_of file.now) budget (length out.old) }
    ensures out_after { out.new ≡ out_by (complete_check file.now) (candidate_of file.now) budget out.old }
{
    let drawing = Drawing::open(file)?;
    let mut store = [0u64; STORE_LENGTH];
    complete_good(drawing, &mut store, budget, out)
}
