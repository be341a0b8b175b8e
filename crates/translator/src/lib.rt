// Between drawing files and text drawings: the text of a file, and the file of a text, each of any bytes.
#![tactic(auto)]

ghost use Rattle.std.specs.Prelude.{◌≡◌, ◌≤◌, Ok, length};
ghost use Rattle.rows.specs.Numbers.{held};
ghost use Rattle.model.specs.Limits.{store_length};
ghost use Rattle.drawing.specs.Files.{check_of};
ghost use Rattle.writer.specs.Saves.{Told};
ghost use Rattle.text.specs.Texts.{begin_check, begun};
ghost use Rattle.translator.specs.Translates.{text_check_of, text_of_file, file_check_of, file_of_text, Unfilled};

use model::Header;
use model::limits::STORE_LENGTH;
use model::refusals::{Reason, Refusal};
use text::Beginning;

pub mod writing;

// ---- file to text

// Writes the text of a good file, whose relations go to the store.
fn text_of_good(
    file: &[u8],
    store: &mut [u64],
    out: &mut [u8],
    head: Header,
) -> Result<usize, Refusal>
    requires { (check_of file.now ≡ Ok head) × (store_length ≤ length store.old) }
    ensures { Told (text_check_of file.now (length out.old)) (text_of_file file.now) out.old result out.new }
{
    drawing::fill(file, store, head.n, head.p);
    writing::written_text(out, file, store, head).ok_or(Refusal {
        reason: Reason::ShortBuffer,
        at: 0,
    })
}

// Writes the text of the candidate that a file of any bytes holds.
pub fn text_of_file(file: &[u8], out: &mut [u8]) -> Result<usize, Refusal>
    ensures { Told (text_check_of file.now (length out.old)) (text_of_file file.now) out.old result out.new }
{
    let head = drawing::check_file(file)?;
    let mut store = [0u64; STORE_LENGTH];
    text_of_good(file, &mut store, out, head)
}

// ---- text to file

// Writes the file of a text that passed up to its edges, which go to the store.
fn file_of_begun(
    text: &[u8],
    store: &mut [u64],
    out: &mut [u8],
    start: Beginning,
) -> Result<usize, Refusal>
    requires { (begun (begin_check text.now) text.now ≡ Ok start) × (store_length ≤ length store.old) × Unfilled (held store.old) }
    ensures { Told (file_check_of text.now (length out.old)) (file_of_text text.now) out.old result out.new }
{
    let head = start.head;
    let places = text::parts::places(text, start.places, head.p);
    let list = text::parts::actions(text, start.actions, head.n);
    let end = text::edges::fill(text, start.edges, head.n, list, store);
    text::checks::end(text, end)?;
    lender::save_first(list, head.n, &places[..head.p], head, store, out)
}

// Writes the file of the candidate that a text of any bytes holds.
pub fn file_of_text(text: &[u8], out: &mut [u8]) -> Result<usize, Refusal>
    ensures { Told (file_check_of text.now (length out.old)) (file_of_text text.now) out.old result out.new }
{
    let start = text::checks::begin(text)?;
    let mut store = [0u64; STORE_LENGTH];
    file_of_begun(text, &mut store, out, start)
}
