// Relations 7 to 13: release sequences, sw by its six cases, cad, dob, ithb and hb, each by whole rows.
ghost use Rattle.std.specs.Prelude.{◌≡◌, ◌<◌};
ghost use Rattle.rows.specs.Sets.{either, before};
ghost use Rattle.rows.specs.Numbers.{has};
ghost use Rattle.model.specs.Model.{rs, sw, sw_mutex, sw_atomic, sw_fences, sw_fence_atomic, sw_atomic_fence, cad_step, dob, r, hb};
ghost use Rattle.desk.specs.Reading.{on};
ghost use Rattle.relations.specs.Bases.{told};

use desk::{Desk, HEARD};
use model::{
    ACQUIRE, ASW, ATOMIC, CAD, CONSUME, DD, DOB, FENCE, ITHB, LOCK, PLACE, RELEASE, RF, SB, SC, SW,
    THREAD, UNLOCK, WORDS,
};
use rows::Row;

// rs: hrs with a release.
pub fn rs_row(desk: &Desk, a: usize) -> Row
    ensures { has result ≡ on desk.now rs a }
{
    let release = desk.row(WORDS, RELEASE).contains(a);
    desk::hrs_row(desk.book, desk.n, a).only_if(release)
}

// Same place and (unlock a, lock b, a sc b).
fn sw_mutex_row(desk: &Desk, a: usize) -> Row
    ensures { has result ≡ on desk.now sw_mutex a }
{
    let here = desk.row(WORDS, UNLOCK).contains(a);
    desk.row(PLACE, a)
        .and(desk.row(WORDS, LOCK))
        .and(desk.row(SC, a))
        .only_if(here)
}

// Same place, release a, acquire b, different threads, and rs(a,c), c rf b for some c.
fn sw_atomic_row(desk: &Desk, a: usize) -> Row
    ensures { a < desk.now.n → has result ≡ before (on desk.now sw_atomic a) desk.now.n }
{
    let here = desk.row(WORDS, RELEASE).contains(a);
    desk.row(PLACE, a)
        .and(desk.row(WORDS, ACQUIRE))
        .minus(desk.row(THREAD, a))
        .and(desk.note(HEARD, a))
        .only_if(here)
}

// The actions that read from the hypothetical release sequence of an atomic write after a, at that write's place.
fn told_row(desk: &Desk, a: usize) -> Row
    ensures { has result ≡ before (on desk.now told a) desk.now.n }
{
    let writes = desk.row(SB, a).and(desk::atomic_writes(desk.book, desk.n));
    rows::join_in(writes, desk.notes, HEARD, desk.book, PLACE, desk.n)
}

// Release fence a and acquire fence b with atomic write x, atomic y of x's place, a sb x, y sb b, hrs(x,z), z rf y; and release fence a and acquire atomic b, where y is b.
fn sw_from_fence_row(desk: &Desk, a: usize) -> Row
    ensures { has result ≡ either (on desk.now sw_fences a) (before (on desk.now sw_fence_atomic a) desk.now.n) }
{
    let fences = desk.row(WORDS, FENCE);
    let here = desk.row(WORDS, RELEASE).and(fences).contains(a);
    if !here {
        return Row::empty();
    }
    let y = told_row(desk, a).and(desk.row(WORDS, ATOMIC));
    let later = desk.join(y, SB).and(fences);
    later.or(y).and(desk.row(WORDS, ACQUIRE))
}

// Release atomic a and acquire fence b with atomic x of a's place, x sb b, rs(a,z), z rf x.
fn sw_atomic_fence_row(desk: &Desk, a: usize) -> Row
    ensures { a < desk.now.n → has result ≡ on desk.now sw_atomic_fence a }
{
    let atomics = desk.row(WORDS, ATOMIC);
    let here = desk.row(WORDS, RELEASE).and(atomics).contains(a);
    let x = desk
        .note(HEARD, a)
        .and(atomics)
        .and(desk.row(PLACE, a))
        .only_if(here);
    desk.join(x, SB)
        .and(desk.row(WORDS, ACQUIRE))
        .and(desk.row(WORDS, FENCE))
}

pub fn sw_row(desk: &Desk, a: usize) -> Row
    ensures { a < desk.now.n → before (has result) desk.now.n ≡ before (on desk.now sw a) desk.now.n }
{
    desk.row(ASW, a)
        .or(sw_mutex_row(desk, a))
        .or(sw_atomic_row(desk, a))
        .or(sw_from_fence_row(desk, a))
        .or(sw_atomic_fence_row(desk, a))
}

pub fn cad_step_row(desk: &Desk, a: usize) -> Row
    ensures { has result ≡ on desk.now cad_step a }
{
    desk.row(RF, a).and(desk.row(SB, a)).or(desk.row(DD, a))
}

pub fn dob_row(desk: &Desk, a: usize) -> Row
    ensures { a < desk.now.n → has result ≡ on desk.now dob a }
{
    let here = desk.row(WORDS, RELEASE).contains(a);
    let b = desk
        .note(HEARD, a)
        .and(desk.row(WORDS, CONSUME))
        .only_if(here);
    b.or(desk.join(b, CAD))
}

// r = sw ∪ dob ∪ sw;sb.
pub fn r_row(desk: &Desk, a: usize) -> Row
    ensures { has result ≡ on desk.now r a }
{
    let sw = desk.row(SW, a);
    let dob = desk.row(DOB, a);
    sw.or(dob).or(desk.join(sw, SB))
}

pub fn hb_row(desk: &Desk, a: usize) -> Row
    ensures { has result ≡ on desk.now hb a }
{
    desk.row(SB, a).or(desk.row(ITHB, a))
}
