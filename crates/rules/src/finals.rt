// Rules 27 to 36, which edition 2 has in place of 15 and 19 to 23: the offences of each in a row. (Rule 27 is never the lowest broken: where it is asked, rules 4 and 9 hold, so hb has no cycle.)
ghost use Rattle.std.specs.Prelude.{true, ◌≡◌, ◌≤◌, ◌<◌};
ghost use Rattle.rows.specs.Sets.{before};
ghost use Rattle.rows.specs.Numbers.{size, has, held};
ghost use Rattle.model.specs.Model.{Mo, differ, rule28, rule29, rule30, rule31, rule32, rule33, rule34, rule35, rule36};
ghost use Rattle.desk.specs.Reading.{on, over};
ghost use Rattle.rules.specs.Promises.{numbered, Settled, Offences, Suspects, Bad, beyond};

use crate::edges::{one_row, writes_of_row};
use crate::reads::{rule23_row, sources};
use desk::{Desk, FED};
use model::{
    AT_ATOMIC, AT_PLAIN, ATOMIC_LOAD, HB, MO, PLACE, PLAIN, READ, RF, RMW, SC, SEQ_CST, VSE, WORDS,
    WRITE,
};
use rows::Row;

// What is in exactly one of the two.
fn differ_row(p: Row, q: Row) -> Row
    ensures { has result ≡ (λ b. differ (has p b) (has q b)) }
{
    p.minus(q).or(q.minus(p))
}

// What comes before a in mo: the other writes of its place that do not come after it.
fn earlier_row(d: &[u64], n: usize, a: usize) -> Row
    ensures { Settled n (held d.now) → a < n → has result ≡ before (λ b. Mo n (held d.now) b a) n }
{
    writes_of_row(d, n, a)
        .without(a)
        .minus(rows::load(d, MO, a))
        .before(n)
}

// 28. A load (3 or 6) has a source exactly if it has a vse.
fn rule28_bad(desk: &Desk) -> Row
    ensures { over desk.now (Bad rule28) result }
{
    let plain = desk.row(WORDS, PLAIN).and(desk.row(WORDS, READ));
    let loads = desk.row(WORDS, ATOMIC_LOAD).or(plain);
    let fed = desk.join(Row::full(), RF);
    let seen = desk.join(Row::full(), VSE);
    loads.and(differ_row(fed, seen))
}

// The same in the row of b.
fn rule28_row(desk: &Desk, b: usize) -> Row
    ensures { over desk.now (Offences rule28) b result }
{
    one_row(rule28_bad(desk), b)
}

// 29. At a non-atomic place the source is a vse.
fn rule29_row(desk: &Desk, w: usize) -> Row
    ensures { over desk.now (Offences rule29) w result }
{
    desk.row(RF, w)
        .and(desk.row(WORDS, AT_PLAIN))
        .minus(desk.row(VSE, w))
}

// 30. At an atomic place the source is not hb-later than the read.
fn rule30_row(desk: &Desk, w: usize) -> Row
    ensures { over desk.now (Offences rule30) w result }
{
    let r = desk.row(RF, w).and(desk.row(WORDS, AT_ATOMIC));
    rows::column(r, desk.book, HB, w)
}

// 31. An RMW reads from w exactly if w is its immediate mo predecessor.
fn rule31_row(desk: &Desk, w: usize) -> Row
    ensures { over desk.now (Offences rule31) w result }
{
    let rf = desk.row(RF, w);
    let mo = desk.row(MO, w);
    let b = desk.row(WORDS, RMW).and(rf.or(mo));
    let later = desk.join(mo.only_if(!b.is_empty()), MO);
    b.and(differ_row(rf, mo.minus(later)))
}

// 32. A seq_cst read of a seq_cst write keeps rule 23, and one of any other write w has no write w' of that place with w hb w' and w' sc the read.
fn rule32_row(desk: &Desk, w: usize) -> Row
    ensures { over desk.now (Offences rule32) w result }
{
    let strong = desk.row(WORDS, SEQ_CST);
    let r = desk.row(RF, w).and(strong).only_if(!strong.contains(w));
    let writes = desk
        .row(HB, w)
        .and(desk.row(WORDS, WRITE))
        .only_if(!r.is_empty());
    let stale = r.and(rows::join_in(writes, desk.book, PLACE, desk.book, SC, desk.n));
    rule23_row(desk, w).or(stale)
}

// 33. Forbidden: w hb w' and w' mo w.
fn rule33_row(desk: &Desk, w: usize) -> Row
    ensures { on desk.now Settled → over desk.now (Offences rule33) w result }
{
    desk.row(HB, w).and(earlier_row(desk.book, desk.n, w))
}

// 34. Forbidden: w' mo w, w hb r, w' rf r. In the row of w'.
fn rule34_row(desk: &Desk, w: usize) -> Row
    ensures { over desk.now (Offences rule34) w result }
{
    let r = desk.row(RF, w);
    let later = desk.row(MO, w).only_if(!r.is_empty());
    r.and(desk.join(later, HB))
}

// 35. Forbidden: r hb w, w mo w', w' rf r. In the row of w'.
fn rule35_row(desk: &Desk, w: usize) -> Row
    ensures { on desk.now Settled → over desk.now (Offences rule35) w result }
{
    rows::leading(
        desk.row(RF, w),
        desk.book,
        HB,
        earlier_row(desk.book, desk.n, w),
    )
}

// 36. Forbidden: w rf r, w' mo w, r hb r', w' rf r'. In the row of r, which has one source at most.
fn rule36_row(desk: &Desk, r: usize) -> Row
    ensures { on desk.now Settled → over desk.now (Offences rule36) r result }
{
    let w = desk.note(FED, r).lowest();
    if w < desk.n {
        return desk
            .row(HB, r)
            .and(desk.join(earlier_row(desk.book, desk.n, w), RF));
    }
    Row::empty()
}

// The offences of rule 27 or a later one, by its number, in the row of a.
pub fn row(rule: u32, desk: &Desk, a: usize) -> Row
    ensures { beyond rule ≡ true → (27 ≤ rule → on desk.now Settled) → over desk.now (Offences (numbered rule)) a result }
{
    match rule {
        28 => rule28_row(desk, a),
        29 => rule29_row(desk, a),
        30 => rule30_row(desk, a),
        31 => rule31_row(desk, a),
        32 => rule32_row(desk, a),
        33 => rule33_row(desk, a),
        34 => rule34_row(desk, a),
        35 => rule35_row(desk, a),
        36 => rule36_row(desk, a),
        _ => Row::empty(),
    }
}

// The actions in whose rows a rule, by its number, can offend, where it has some of its own.
pub fn suspects(rule: u32, desk: &Desk) -> Row
    ensures { (27 ≤ rule → on desk.now Settled) → over desk.now (Suspects (numbered rule)) result }
{
    match rule {
        27 => Row::empty(),
        28 => rule28_bad(desk),
        29 => sources(desk, desk.row(WORDS, AT_PLAIN)),
        30 => sources(desk, desk.row(WORDS, AT_ATOMIC)),
        31 => Row::full().only_if(!desk.row(WORDS, RMW).is_empty()),
        32 => sources(desk, desk.row(WORDS, SEQ_CST)),
        33 => desk.row(WORDS, AT_ATOMIC).and(desk.row(WORDS, WRITE)),
        34 | 35 => sources(desk, Row::full()),
        36 => desk.join(desk.row(WORDS, AT_ATOMIC), RF),
        _ => Row::full(),
    }
}
