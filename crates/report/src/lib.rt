// The report of an answer, as bytes in a lent buffer.
#![tactic(auto, using(page::specs::Laws::Measured::measures), unfolding(crate::specs::Report::verdict_line, crate::specs::Report::refused_text, crate::specs::Report::judged_text))]

ghost use Rattle.std.specs.Prelude.{◌≡◌, true, [], ◌∷◌, ◌≤◌, leb, take};
ghost use Rattle.rows.specs.Numbers.{size, has, held};
ghost use Rattle.page.specs.Page.{Offered};
ghost use Rattle.page.specs.Pens.{penned};
ghost use Rattle.page.specs.Lines.{line};
ghost use Rattle.model.specs.declared.Verdict.TheVariants.{Broken};
ghost use Rattle.model.specs.Refusals.{number};
ghost use Rattle.report.specs.Report.{middle_numbers, verdict_line, pair_lines, answer_lines, race_lines, order_line, judged_text, refused_text};

use model::limits::MOST_ACTIONS;
use model::refusals::Refusal;
use model::{DATA_RACES, Judged, OrderPart, UNSEQUENCED_RACES, Verdict};
use page::Pen;
use rows::Row;

// Bytes of the longest report: the verdict, the counts, a line for each action, one for each pair a<b, and the order.
pub const LONGEST_REPORT: usize = 28
    + 20
    + 18 * MOST_ACTIONS
    + 20 * (MOST_ACTIONS * (MOST_ACTIONS - 1) / 2)
    + (6 + 4 * MOST_ACTIONS);

// A failed rule's line: the rule, the pair, and the middle, if it is named.
fn broken_line(pen: &mut Pen, rule: usize, a: usize, b: usize, middle: Option<usize>)
    ensures { pen.new ≡ penned pen.old (verdict_line (Broken rule a b middle)) }
{
    match middle {
        None => pen.line(b"inconsistent", &[rule, a, b]),
        Some(z) => pen.line(b"inconsistent", &[rule, a, b, z]),
    }
}

// The first line.
fn verdict_line(pen: &mut Pen, verdict: Verdict)
    ensures { pen.new ≡ penned pen.old (verdict_line verdict) }
{
    match verdict {
        Verdict::Passed => pen.line(b"consistent", &[]),
        Verdict::Broken { rule, a, b, middle } => broken_line(pen, rule as usize, a, b, middle),
    }
}

// A line for each pair a<b of part k.
fn pair_lines(pen: &mut Pen, word: &[u8], d: &[u64], k: u32, n: usize)
    requires { n ≤ size }
    ensures { pen.new ≡ penned pen.old (pair_lines word.now n (held d.now k)) }
{
    for a in 0..n {
        let row = rows::load(d, k, a).after(a).before(n);
        pen.row_lines(word, Some(a), row);
    }
}

// The last line.
fn order_line(pen: &mut Pen, part: OrderPart, order: &[u8], n: usize)
    ensures { pen.new ≡ penned pen.old (order_line part (take n order.now)) }
{
    match part {
        OrderPart::Given => {
            pen.put(b"order");
            for &action in &order[..n.min(order.len())] {
                pen.put_next(action as usize);
            }
            pen.end_line(&[]);
        }
        OrderPart::Refused => pen.line(b"no order", &[]),
    }
}

// The verdict and the counts.
fn answer_lines(pen: &mut Pen, j: Judged)
    ensures { pen.new ≡ penned pen.old (answer_lines j) }
{
    verdict_line(pen, j.verdict);
    pen.line(
        b"found",
        &[
            j.indeterminate as usize,
            j.unsequenced as usize,
            j.races as usize,
        ],
    );
}

// The lines of both kinds of races.
fn race_lines(pen: &mut Pen, store: &[u64], n: usize)
    requires { n ≤ size }
    ensures { pen.new ≡ penned pen.old (race_lines n (held store.now 17) (held store.now 16)) }
{
    pair_lines(pen, b"unsequenced", store, UNSEQUENCED_RACES, n);
    pair_lines(pen, b"data", store, DATA_RACES, n);
}

// The whole report.
fn judged_lines(pen: &mut Pen, j: Judged, bare: Row, store: &[u64], order: &[u8], n: usize)
    requires { n ≤ size }
    ensures { pen.new ≡ penned pen.old (judged_text n j (has bare) (held store.now 17) (held store.now 16) (take n order.now)) }
{
    answer_lines(pen, j);
    pen.row_lines(b"indeterminate", None, bare.before(n));
    race_lines(pen, store, n);
    order_line(pen, j.order, order, n);
}

// The report of an answer to n actions, at most SIZE: bare holds its indeterminate reads, store its relations, order its serial order.
// It is written whole or not at all.
pub fn judged(
    out: &mut [u8],
    j: Judged,
    bare: Row,
    store: &[u64],
    order: &[u8],
    n: usize,
) -> Option<usize>
    ensures { Offered (leb n size) (judged_text n j (has bare) (held store.now 17) (held store.now 16) (take n order.now)) out.old out.new result }
{
    if n > rows::SIZE {
        return None;
    }
    page::offer(out, |pen| judged_lines(pen, j, bare, store, order, n))
}

// The report of a refusal.
pub fn refused(out: &mut [u8], refusal: Refusal) -> Option<usize>
    ensures { Offered true (refused_text (number refusal.reason) refusal.at) out.old out.new result }
{
    let numbers = [refusal.reason.number() as usize, refusal.at];
    page::offer(out, |pen| pen.line(b"refused", &numbers))
}

// A line of a word and a number.
pub fn counted(out: &mut [u8], word: &[u8], count: u64) -> Option<usize>
    ensures { Offered true (line word.now (count ∷ [])) out.old out.new result }
{
    page::offer(out, |pen| pen.line(word, &[count as usize]))
}
