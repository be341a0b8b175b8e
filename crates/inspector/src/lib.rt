// The inspector's door: a drawing file judged by the second engine, and by both.
#![tactic(auto)]

ghost use Rattle.std.specs.Prelude.{true, ◌≡◌, ℕ, ◌≤◌, length};
ghost use Rattle.rows.specs.Sets.{before};
ghost use Rattle.rows.specs.Numbers.{size, has, held};
ghost use Rattle.model.specs.Limits.{store_length, order_length};
ghost use Rattle.model.specs.Words.{book_from};
ghost use Rattle.model.specs.Model.{filled};
ghost use Rattle.model.specs.Judge.{indeterminate, serial_order, onto};
ghost use Rattle.table.specs.Reading.{on};
ghost use Rattle.drawing.specs.Files.{candidate_of, read_of};
ghost use Rattle.page.specs.Page.{Offered};
ghost use Rattle.report.specs.Report.{Roomy};
ghost use Rattle.judge.specs.Answers.{Ruled, Judges, Settled, Settles, answer_by, store_by, order_by, text_by, Demands};
ghost use Rattle.inspector.specs.Same.{Same};

use drawing::Drawing;
use judge::Seen;
use model::limits::{DESK_LENGTH, MOST_ACTIONS, STORE_LENGTH};
use model::refusals::Refusal;
use model::{Action, Judged};
use rows::Row;
use slow::{actions, fill, verdict};
use table::Table;

// The reads without a source, as the report takes them.
fn bare_reads(t: Table) -> Row
    requires { t.n ≤ size }
    ensures { has result ≡ before (on t.entry indeterminate) t.entry.n }
{
    rows::select(t.n, |b| verdict::is_indeterminate(t, b))
}

// What the second engine says of a table with relations 7 to 17.
fn judge_table(t: Table, order: &mut [u8], edition: usize) -> Seen
    requires { (t.n ≤ size) × (t.n ≤ length order.old) }
    ensures ruled { on t.entry (Ruled edition) result }
    ensures order_after { order.new ≡ onto (on t.entry (serial_order edition)) order.old }
{
    let judged = slow::judge(t, order, edition);
    Seen {
        judged,
        bare: bare_reads(t),
    }
}

// Judges n actions at their places, with relations 0 to 6 in the store.
fn judge_actions(
    acts: [Action; MOST_ACTIONS],
    places: &[u8],
    store: &mut [u64],
    order: &mut [u8],
    edition: usize,
    n: usize,
) -> Seen
    requires { (n ≤ size) × (n ≤ length order.old) × (store_length ≤ length store.old) }
    ensures { Judges edition n (filled n (book_from n acts places.now (held store.old))) (held store.old) (held store.new) order.old order.new result }
{
    let mut t = [0u64; DESK_LENGTH];
    actions::lay(&mut t, store, acts, places, n);
    fill::derive(store, &mut t, n);
    judge_table(Table { numbers: &t, n }, order, edition)
}

// Judges an open drawing on the store's own numbers.
fn judge_front(drawing: Drawing, front: &mut [u64], order: &mut [u8]) -> Seen
    requires { (length front.old ≡ store_length) × (order_length ≤ length order.old) }
    ensures { Settled (candidate_of drawing.entry.file.now) front.new order.old order.new result }
{
    let acts = drawing.actions();
    let places = drawing.places();
    drawing.fill(front);
    let head = drawing.head();
    judge_actions(acts, places, front, order, head.edition, head.n)
}

// Judges an open drawing.
fn judge_good(drawing: Drawing, store: &mut [u64], order: &mut [u8]) -> Seen
    requires { (store_length ≤ length store.old) × (order_length ≤ length order.old) }
    ensures { Settles (candidate_of drawing.entry.file.now) store.old store.new order.old order.new result }
{
    judge_front(drawing, &mut store[..STORE_LENGTH], order)
}

// Judges a file of any bytes by the second engine.
pub fn judge_slowly(file: &[u8], store: &mut [u64], order: &mut [u8]) -> Result<Judged, Refusal>
    ensures value { result ≡ answer_by (read_of file.now store.old order.old) file.now }
    ensures store_after { store.new ≡ store_by (read_of file.now store.old order.old) file.now store.old }
    ensures order_after { order.new ≡ order_by (read_of file.now store.old order.old) file.now order.old }
    ensures demands { Demands file.now store.old order.old result store.new order.new }
{
    let drawing = Drawing::read(file, store.len(), order.len())?;
    Ok(judge_good(drawing, store, order).judged)
}

// The same with the answer written out: judges a file of any bytes by the second engine, and writes its report.
pub fn report_slowly(
    file: &[u8],
    store: &mut [u64],
    order: &mut [u8],
    out: &mut [u8],
) -> Option<usize>
    ensures offered { Offered true (text_by (read_of file.now store.old order.old) file.now) out.old out.new result }
    ensures roomy { Roomy (length out.old) result }
    ensures store_after { store.new ≡ store_by (read_of file.now store.old order.old) file.now store.old }
    ensures order_after { order.new ≡ order_by (read_of file.now store.old order.old) file.now order.old }
{
    match Drawing::read(file, store.len(), order.len()) {
        Err(refusal) => report::refused(out, refusal),
        Ok(drawing) => {
            let seen = judge_good(drawing, store, order);
            report::judged(out, seen.judged, seen.bare, store, order, drawing.head().n)
        }
    }
}

// What the two engines answer to one file.
#[derive(Clone, Copy, PartialEq, Eq)]
pub struct Both {
    pub quick: Result<Judged, Refusal>,
    pub slow: Result<Judged, Refusal>,
}

// Judges a file of any bytes by both engines, each with a store and an order buffer of its own. For every file, if these held the same: same answer, same store, same order.
pub fn judge_both(
    file: &[u8],
    store: &mut [u64],
    order: &mut [u8],
    store2: &mut [u64],
    order2: &mut [u8],
) -> Both
    ensures { store.old ≡ store2.old → order.old ≡ order2.old → Same result store.new store2.new order.new order2.new }
{
    let quick = judge::judge(file, store, order);
    let slow = judge_slowly(file, store2, order2);
    Both { quick, slow }
}
