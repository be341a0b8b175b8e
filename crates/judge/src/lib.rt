// The judge: a drawing file in, a verdict, counts and where due a serial order out.
#![tactic(auto)]

ghost use Rattle.std.specs.Prelude.{true, cond, List, [], ◌≡◌, ℕ, ◌≤◌, ltb, length};
ghost use Rattle.rows.specs.Numbers.{size, held};
ghost use Rattle.model.specs.Limits.{store_length, order_length};
ghost use Rattle.model.specs.declared.Action.{Action};
ghost use Rattle.model.specs.Words.{book_from};
ghost use Rattle.model.specs.Model.{filled};
ghost use Rattle.model.specs.Laws.Filled.{Filled};
ghost use Rattle.model.specs.Laws.Placing.{Placing};
ghost use Rattle.model.specs.Judge.{order_part, serial_order, precedes, greedy};
ghost use Rattle.desk.specs.Notes.{Noted};
ghost use Rattle.words.specs.Sheet.{Sheet, Sheeted};
ghost use Rattle.order.specs.Steps.{onto};
ghost use Rattle.drawing.specs.Files.{candidate_of, read_of};
ghost use Rattle.page.specs.Page.{Offered};
ghost use Rattle.report.specs.Report.{Roomy};
ghost use Rattle.judge.specs.Answers.{Ruled, Judges, Settled, Settles, answer_by, store_by, order_by, text_by, Demands};

use drawing::Drawing;
use model::limits::{DESK_LENGTH, STORE_LENGTH};
use model::refusals::Refusal;
use model::{DATA_RACES, Judged, OrderPart, UNSEQUENCED_RACES};
use rows::Row;

// What is seen of a candidate: the answer, and its reads without a source.
#[derive(Clone, Copy)]
pub struct Seen {
    pub judged: Judged,
    pub bare: Row,
}

// The order's part of the answer, with the serial order in the buffer if it is due.
fn give_order(d: &[u64], n: usize, order: &mut [u8], due: bool) -> OrderPart
    requires { (n ≤ size) × (n ≤ length order.old) }
    ensures value { result ≡ order_part due }
    ensures order_after { order.new ≡ onto (cond due (greedy n (precedes n (held d.now)) n (λ a. ltb a n)) []) order.old }
{
    if due {
        order::serial(d, n, order);
        OrderPart::Given
    } else {
        OrderPart::Refused
    }
}

// What the rules, the races and the order say of a desk with relations 7 to 17.
fn judge_desk(d: &[u64], e: &[u64], order: &mut [u8], edition: usize, n: usize) -> Seen
    requires { (n ≤ size) × (n ≤ length order.old) × Noted n (held d.now) (held e.now) × Filled n (held d.now) × Placing n (held d.now) }
    ensures ruled { Ruled edition n (held d.now) result }
    ensures order_after { order.new ≡ onto (serial_order edition n (held d.now)) order.old }
{
    let verdict = rules::scan(d, e, edition, n);
    let bare = rules::indeterminate_reads(d, n);
    let indeterminate = rules::indeterminate_count(d, n);
    let unsequenced = rows::pairs(d, UNSEQUENCED_RACES, n);
    let races = rows::pairs(d, DATA_RACES, n);
    let due = order::is_due(d, edition, n, verdict, indeterminate, unsequenced, races);
    Seen {
        judged: Judged {
            verdict,
            indeterminate,
            unsequenced,
            races,
            order: give_order(d, n, order, due),
        },
        bare,
    }
}

// Judges the actions of a sheet, with relations 0 to 6 in the store.
pub fn judge_sheet(
    sheet: &[u64; words::SHEET_LENGTH],
    store: &mut [u64],
    order: &mut [u8],
    edition: usize,
    n: usize,
) -> Seen
    requires { (n ≤ size) × (n ≤ length order.old) × (store_length ≤ length store.old) × Sheeted n sheet.now }
    ensures { (acts : List Action) (places : List ℕ) → Sheet n acts places sheet.now → Judges edition n (filled n (book_from n acts places (held store.old))) (held store.old) (held store.new) order.old order.new result }
{
    // Ones, which nothing reads: an emulator takes long over the call that would clear so much.
    let mut d = [1u64; DESK_LENGTH];
    words::lay(&mut d, store, sheet, n);
    let mut e = [1u64; desk::NOTES_LENGTH];
    desk::take_notes(&mut e, &d, n);
    relations::derive(store, &mut d, &e, n);
    judge_desk(&d, &e, order, edition, n)
}

// The sheet of an open drawing's actions.
fn sheet_of(drawing: Drawing) -> [u64; words::SHEET_LENGTH]
    ensures { Sheet drawing.entry.head.n (candidate_of drawing.entry.file.now).acts (candidate_of drawing.entry.file.now).places result }
{
    let places = drawing.places();
    let mut sheet = [1u64; words::SHEET_LENGTH];
    for i in 0..drawing.head().n {
        let x = drawing.action(i);
        words::enter(&mut sheet, i, x, words::place_kind(places, x.place));
    }
    sheet
}

// Judges an open drawing on the store's own numbers.
fn judge_front(drawing: Drawing, front: &mut [u64], order: &mut [u8]) -> Seen
    requires { (length front.old ≡ store_length) × (order_length ≤ length order.old) }
    ensures { Settled (candidate_of drawing.entry.file.now) front.new order.old order.new result }
{
    let sheet = sheet_of(drawing);
    drawing.fill(front);
    let head = drawing.head();
    judge_sheet(&sheet, front, order, head.edition, head.n)
}

// Judges an open drawing.
fn judge_good(drawing: Drawing, store: &mut [u64], order: &mut [u8]) -> Seen
    requires { (store_length ≤ length store.old) × (order_length ≤ length order.old) }
    ensures { Settles (candidate_of drawing.entry.file.now) store.old store.new order.old order.new result }
{
    judge_front(drawing, &mut store[..STORE_LENGTH], order)
}

// The first door: judges a file of any bytes.
pub fn judge(file: &[u8], store: &mut [u64], order: &mut [u8]) -> Result<Judged, Refusal>
    ensures value { result ≡ answer_by (read_of file.now store.old order.old) file.now }
    ensures store_after { store.new ≡ store_by (read_of file.now store.old order.old) file.now store.old }
    ensures order_after { order.new ≡ order_by (read_of file.now store.old order.old) file.now order.old }
    ensures demands { Demands file.now store.old order.old result store.new order.new }
{
    let drawing = Drawing::read(file, store.len(), order.len())?;
    Ok(judge_good(drawing, store, order).judged)
}

// The first door with the answer written out: judges a file of any bytes, and writes its report.
pub fn report_on(file: &[u8], store: &mut [u64], order: &mut [u8], out: &mut [u8]) -> Option<usize>
    ensures offered { Offered true (text_by (read_of file.now store.old order.old) file.now) out.old out.new result }
    ensures roomy { Roomy (length out.old) result }
    ensures store_after { store.new ≡ store_by (read_of file.now store.old order.old) file.now store.old }
    ensures order_after { order.new ≡ order_by (read_of file.now store.old order.old) file.now order.old }
{
    match Drawing::read(file, store.len(), order.len()) {
        Err(refusal) => report::refused(out, refusal),
        Ok(drawing) => {
            let seen = judge_good(drawing, store, order);
            report::judged(out, seen.judged, seen.bare, store, order, drawing.head().n)
        }
    }
}
