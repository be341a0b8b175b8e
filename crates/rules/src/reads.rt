// Rules 17 to 26, of what reads read: the offences of each in a row.
ghost use Rattle.std.specs.Prelude.{◌≡◌, ◌&&◌, ◌<◌, ◌≤◌};
ghost use Rattle.rows.specs.Sets.{both, before, image};
ghost use Rattle.rows.specs.Numbers.{size, has, held};
ghost use Rattle.model.specs.Model.{write, atomic, unfed, rule17, rule18, rule19, rule20, rule21, rule22, rule23, rule24, rule25, rule26};
ghost use Rattle.desk.specs.Notes.{note_count};
ghost use Rattle.desk.specs.Reading.{over};
ghost use Rattle.rules.specs.Promises.{Offences, Suspects, Bad, overtaken};

use crate::edges::one_row;
use desk::{Desk, FED, LATE, SB_FENCE_SC, SB_FENCES_SB, SC_FENCE_SB};
use model::{
    AT_ATOMIC, AT_MUTEX, AT_PLAIN, ATOMIC, HB, LOCK, MO, PLACE, READ, RF, RMW, SC, SEQ_CST, UNLOCK,
    VALUE, VSE, VSSE, WORDS, WRITE,
};
use rows::Row;

// 17. rf edge: same place, different ends, value written = value read (absent on both for a mutex); mutex: unlock to lock; elsewhere write to read.
pub fn rule17_row(desk: &Desk, a: usize) -> Row
    ensures { over desk.now (Offences rule17) a result }
{
    let mutex = desk.row(WORDS, AT_MUTEX).contains(a);
    let unlocks = desk.row(WORDS, UNLOCK).contains(a);
    let writes = desk.row(WORDS, WRITE).contains(a);
    let locks = desk.row(WORDS, LOCK).only_if(unlocks).only_if(mutex);
    let reads = desk
        .row(VALUE, a)
        .and(desk.row(WORDS, READ))
        .only_if(writes)
        .only_if(!mutex);
    desk.row(RF, a)
        .minus(desk.row(PLACE, a).without(a).and(locks.or(reads)))
}

// 18. One rf source at most: every edge into a target with two offends.
pub fn rule18_row(desk: &Desk, a: usize) -> Row
    ensures { over desk.now (Offences rule18) a result }
{
    let others = Row::full().without(a);
    rows::leading(desk.row(RF, a), desk.notes, FED, others)
}

// The reads that read from none of their sources in part k, or, with no source there, from anything.
fn unfed(d: &[u64], k: u32, reads: Row, n: usize) -> Row
    ensures { n ≤ size → has result ≡ (λ b. has reads b && unfed n (held d.now) (held d.now k) b) }
{
    let some = rows::join(Row::full(), d, k, n);
    let fed = rows::join_in(Row::full(), d, k, d, RF, n);
    let sourced = rows::join(Row::full(), d, RF, n);
    reads.and(some.minus(fed).or(sourced.minus(some)))
}

// 19. Read b at a non-atomic place: if some vse(a,b), b reads from such an a; else from nothing.
pub fn rule19_bad(desk: &Desk) -> Row
    ensures { over desk.now (Bad rule19) result }
{
    let reads = desk.row(WORDS, READ).and(desk.row(WORDS, AT_PLAIN));
    unfed(desk.book, VSE, reads, desk.n)
}

// The same in the row of b.
pub fn rule19_row(desk: &Desk, b: usize) -> Row
    ensures { over desk.now (Offences rule19) b result }
{
    one_row(rule19_bad(desk), b)
}

// 20. Read b at an atomic place: the same with vsse, nothing if it has no vse.
pub fn rule20_bad(desk: &Desk) -> Row
    ensures { over desk.now (Bad rule20) result }
{
    let reads = desk.row(WORDS, READ).and(desk.row(WORDS, AT_ATOMIC));
    unfed(desk.book, VSSE, reads, desk.n)
}

// The same in the row of b.
pub fn rule20_row(desk: &Desk, b: usize) -> Row
    ensures { over desk.now (Offences rule20) b result }
{
    one_row(rule20_bad(desk), b)
}

// 21. x rf a, y rf b, a hb b, one atomic place: x=y or x mo y. Offends at (a,b).
pub fn rule21_row(desk: &Desk, a: usize) -> Row
    ensures { over desk.now (Offences rule21) a result }
{
    let here = desk.row(WORDS, AT_ATOMIC).contains(a);
    let b = desk.row(HB, a).and(desk.row(PLACE, a)).only_if(here);
    let x = desk.note(FED, a).only_if(!b.is_empty());
    let y = rows::join(x, desk.notes, LATE, desk.n);
    rows::leading(b, desk.notes, FED, y)
}

// 22. RMW b, a rf b: a is the immediate mo predecessor.
pub fn rule22_row(desk: &Desk, a: usize) -> Row
    ensures { over desk.now (Offences rule22) a result }
{
    let b = desk.row(RF, a).and(desk.row(WORDS, RMW));
    let mo = desk.row(MO, a);
    let later = desk.join(mo.only_if(!b.is_empty()), MO);
    b.minus(mo.minus(later))
}

// 23. a rf b, both seq_cst: a sc b and no write of that place between in sc.
pub fn rule23_row(desk: &Desk, a: usize) -> Row
    ensures { over desk.now (Offences rule23) a result }
{
    let strong = desk.row(WORDS, SEQ_CST);
    let b = desk.row(RF, a).and(strong).only_if(strong.contains(a));
    let sc = desk.row(SC, a);
    let writes = sc.and(desk.row(WORDS, WRITE)).only_if(!b.is_empty());
    let between = rows::join_in(writes, desk.book, PLACE, desk.book, SC, desk.n);
    b.minus(sc.minus(between))
}

// Rules 24 to 26: the atomic reads of y that note k leads to from one of the writes of their place that is neither y nor before y in mo.
fn overtaken_row(desk: &Desk, k: u32, writes: Row, y: usize) -> Row
    ensures { k < note_count → over desk.now (Offences (overtaken (has writes) k)) y result }
{
    let b = desk.row(RF, y).and(desk.row(WORDS, ATOMIC));
    let a = rows::column(writes.only_if(!b.is_empty()), desk.notes, LATE, y);
    b.and(rows::join_in(a, desk.notes, k, desk.book, PLACE, desk.n))
}

// 24. y rf b, seq_cst fence f sb b, b atomic, write a of b's place, a sc f: y=a or a mo y.
pub fn rule24_row(desk: &Desk, y: usize) -> Row
    ensures { over desk.now (Offences rule24) y result }
{
    overtaken_row(desk, SC_FENCE_SB, desk.row(WORDS, WRITE), y)
}

// 25. y rf b, b atomic, atomic write a of b's place, a sb f, f a seq_cst fence, f sc b: the same.
pub fn rule25_row(desk: &Desk, y: usize) -> Row
    ensures { over desk.now (Offences rule25) y result }
{
    overtaken_row(desk, SB_FENCE_SC, desk::atomic_writes(desk.book, desk.n), y)
}

// 26. y rf b, b atomic, atomic write a of b's place, a sb f, f sc g, g sb b, both seq_cst fences: the same.
pub fn rule26_row(desk: &Desk, y: usize) -> Row
    ensures { over desk.now (Offences rule26) y result }
{
    overtaken_row(
        desk,
        SB_FENCES_SB,
        desk::atomic_writes(desk.book, desk.n),
        y,
    )
}

// What these read from.
pub fn sources(desk: &Desk, these: Row) -> Row
    ensures { has result ≡ image desk.now.n (has these) (held desk.now.notes.now 1) }
{
    rows::join(these, desk.notes, FED, desk.n)
}

// Where rules 24 to 26 can offend: what the atomic actions read from that note k leads to from one of the writes of their place.
fn overtaken_suspects(desk: &Desk, k: u32, writes: Row) -> Row
    ensures { k < note_count → over desk.now (Suspects (overtaken (has writes) k)) result }
{
    let reached = rows::join_in(writes, desk.notes, k, desk.book, PLACE, desk.n);
    sources(desk, reached.and(desk.row(WORDS, ATOMIC)))
}

// Where rule 24 can offend: y rf b, where sc leads from a write of b's place to a seq_cst fence and sb from there to b.
pub fn rule24_suspects(desk: &Desk) -> Row
    ensures { over desk.now (Suspects rule24) result }
{
    overtaken_suspects(desk, SC_FENCE_SB, desk.row(WORDS, WRITE))
}

// Where rule 25 can offend: y rf b, where sb leads from an atomic write of b's place to a seq_cst fence and sc from there to b.
pub fn rule25_suspects(desk: &Desk) -> Row
    ensures { over desk.now (Suspects rule25) result }
{
    overtaken_suspects(desk, SB_FENCE_SC, desk::atomic_writes(desk.book, desk.n))
}

// Where rule 26 can offend: y rf b, where sb leads from an atomic write of b's place to a seq_cst fence, sc from there to a seq_cst fence and sb from there to b.
pub fn rule26_suspects(desk: &Desk) -> Row
    ensures { over desk.now (Suspects rule26) result }
{
    overtaken_suspects(desk, SB_FENCES_SB, desk::atomic_writes(desk.book, desk.n))
}
