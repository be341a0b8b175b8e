// Relations 7 to 17, each for one pair, under the paper's sentence: "some x" is a loop over all actions that leaves at the first x found.
ghost use Rattle.std.specs.Prelude.{◌≡◌, ◌<◌};
ghost use Rattle.model.specs.Model.{element, hrs, rs, sw_mutex, sw, cad_step, dob, r, ithb_step, hb, vse, vsse, data_races, unsequenced_races};
ghost use Rattle.slow.specs.Searches.{Sequences, broken, heard, released, atomic_by, fences_by, fence_atomic_by, atomic_fence_by, sw_by, dob_by, sb_then_r, hidden, passed_by, sees, seen};
ghost use Rattle.table.specs.Reading.{on};

use crate::orders::joined;
use model::{
    ACQUIRE, ASW, AT_ATOMIC, ATOMIC, CAD, CONSUME, DD, DOB, FENCE, HB, HRS, ITHB, LOCK, MO, PLACE,
    PLAIN, READ, RELEASE, RF, RMW, RS, SB, SC, SW, THREAD, UNLOCK, VSE, WRITE,
};
use table::Table;

// ---- release sequences

// c is in a's thread or an RMW.
fn element(t: Table, a: usize, c: usize) -> bool
    ensures { result ≡ on t.entry element a c }
{
    t.edge(THREAD, a, c) | t.is(RMW, c)
}

// Some c with a mo c mo b is neither in a's thread nor an RMW.
fn broken(t: Table, a: usize, b: usize) -> bool
    ensures { result ≡ on t.entry broken a b }
{
    for c in 0..t.n {
        if t.edge(MO, a, c) & t.edge(MO, c, b) & !element(t, a, c) {
            return true;
        }
    }
    false
}

// hrs(a,b): b at an atomic place and (b=a, or a mo b where b, and each c with a mo c mo b, is in a's thread or an RMW).
pub fn hrs(t: Table, a: usize, b: usize) -> bool
    ensures { result ≡ on t.entry hrs a b }
{
    t.is(AT_ATOMIC, b) & ((b == a) | (t.edge(MO, a, b) & element(t, a, b) & !broken(t, a, b)))
}

// rs: hrs with a release.
pub fn rs(t: Table, a: usize, b: usize) -> bool
    ensures { result ≡ on t.entry rs a b }
{
    hrs(t, a, b) & t.is(RELEASE, a)
}

// hrs(x,z), z rf y for some z.
fn heard(t: Table, x: usize, y: usize) -> bool
    ensures { result ≡ on t.entry heard x y }
{
    for z in 0..t.n {
        if t.edge(HRS, x, z) & t.edge(RF, z, y) {
            return true;
        }
    }
    false
}

// rs(a,z), z rf b for some z.
fn released(t: Table, a: usize, b: usize) -> bool
    ensures { result ≡ on t.entry released a b }
{
    for z in 0..t.n {
        if t.edge(RS, a, z) & t.edge(RF, z, b) {
            return true;
        }
    }
    false
}

// ---- sw

// Same place and (unlock a, lock b, a sc b).
fn sw_mutex(t: Table, a: usize, b: usize) -> bool
    ensures { result ≡ on t.entry sw_mutex a b }
{
    t.edge(PLACE, a, b) & (t.is(UNLOCK, a) & t.is(LOCK, b) & t.edge(SC, a, b))
}

// Same place, release a, acquire b, different threads, and rs(a,c), c rf b for some c.
fn sw_atomic(t: Table, a: usize, b: usize) -> bool
    ensures { result ≡ on t.entry atomic_by a b }
{
    t.edge(PLACE, a, b)
        & t.is(RELEASE, a)
        & t.is(ACQUIRE, b)
        & !t.edge(THREAD, a, b)
        & released(t, a, b)
}

// Release fence a and acquire fence b with atomic write x, atomic y of x's place, a sb x, y sb b, hrs(x,z), z rf y.
fn sw_fences(t: Table, a: usize, b: usize) -> bool
    ensures { result ≡ on t.entry fences_by a b }
{
    if !(t.is(RELEASE, a) & t.is(FENCE, a) & t.is(ACQUIRE, b) & t.is(FENCE, b)) {
        return false;
    }
    for x in 0..t.n {
        if t.is(ATOMIC, x) & t.is(WRITE, x) & t.edge(SB, a, x) {
            for y in 0..t.n {
                if t.is(ATOMIC, y) & t.edge(PLACE, x, y) & t.edge(SB, y, b) && heard(t, x, y) {
                    return true;
                }
            }
        }
    }
    false
}

// Release fence a and acquire atomic b with atomic write x of b's place, a sb x, hrs(x,z), z rf b.
fn sw_fence_atomic(t: Table, a: usize, b: usize) -> bool
    ensures { result ≡ on t.entry fence_atomic_by a b }
{
    if !(t.is(RELEASE, a) & t.is(FENCE, a) & t.is(ACQUIRE, b) & t.is(ATOMIC, b)) {
        return false;
    }
    for x in 0..t.n {
        if t.is(ATOMIC, x) & t.is(WRITE, x) & t.edge(PLACE, x, b) & t.edge(SB, a, x)
            && heard(t, x, b)
        {
            return true;
        }
    }
    false
}

// Release atomic a and acquire fence b with atomic x of a's place, x sb b, rs(a,z), z rf x.
fn sw_atomic_fence(t: Table, a: usize, b: usize) -> bool
    ensures { result ≡ on t.entry atomic_fence_by a b }
{
    if !(t.is(RELEASE, a) & t.is(ATOMIC, a) & t.is(ACQUIRE, b) & t.is(FENCE, b)) {
        return false;
    }
    for x in 0..t.n {
        if t.is(ATOMIC, x) & t.edge(PLACE, a, x) & t.edge(SB, x, b) && released(t, a, x) {
            return true;
        }
    }
    false
}

// sw(a,b): asw; or one of the five cases.
pub fn sw(t: Table, a: usize, b: usize) -> bool
    ensures value { result ≡ on t.entry sw_by a b }
    ensures value_2 { on t.entry Sequences → a < t.entry.n → result ≡ on t.entry sw a b }
{
    t.edge(ASW, a, b)
        | sw_mutex(t, a, b)
        | sw_atomic(t, a, b)
        | sw_fences(t, a, b)
        | sw_fence_atomic(t, a, b)
        | sw_atomic_fence(t, a, b)
}

// ---- cad, dob, ithb and hb; the closures of cad and ithb are walks, in fill.rt

// A step of cad: (rf∩sb) ∪ dd.
pub fn cad_step(t: Table, a: usize, b: usize) -> bool
    ensures { result ≡ on t.entry cad_step a b }
{
    (t.edge(RF, a, b) & t.edge(SB, a, b)) | t.edge(DD, a, b)
}

// dob(a,d): release a, consume b, rs(a,e), e rf b, and d=b or cad(b,d).
pub fn dob(t: Table, a: usize, d: usize) -> bool
    ensures value { result ≡ on t.entry dob_by a d }
    ensures value_2 { on t.entry Sequences → a < t.entry.n → result ≡ on t.entry dob a d }
{
    for b in 0..t.n {
        if t.is(RELEASE, a) & t.is(CONSUME, b) & ((d == b) | t.edge(CAD, b, d))
            && released(t, a, b)
        {
            return true;
        }
    }
    false
}

// r = sw ∪ dob ∪ sw;sb.
fn r(t: Table, a: usize, b: usize) -> bool
    ensures { result ≡ on t.entry r a b }
{
    t.edge(SW, a, b) | t.edge(DOB, a, b) | joined(t, SW, SB, a, b)
}

// sb;r
fn sb_then_r(t: Table, a: usize, b: usize) -> bool
    ensures { result ≡ on t.entry sb_then_r a b }
{
    for z in 0..t.n {
        if t.edge(SB, a, z) && r(t, z, b) {
            return true;
        }
    }
    false
}

// A step of ithb: r ∪ sb;r.
pub fn ithb_step(t: Table, a: usize, b: usize) -> bool
    ensures { result ≡ on t.entry ithb_step a b }
{
    r(t, a, b) | sb_then_r(t, a, b)
}

// hb = sb ∪ ithb.
pub fn hb(t: Table, a: usize, b: usize) -> bool
    ensures { result ≡ on t.entry hb a b }
{
    t.edge(SB, a, b) | t.edge(ITHB, a, b)
}

// ---- visible side effects

// Some write c of a's place, neither a nor b, with a hb c hb b.
fn hidden(t: Table, a: usize, b: usize) -> bool
    ensures { result ≡ on t.entry hidden a b }
{
    for c in 0..t.n {
        if t.is(WRITE, c)
            & t.edge(PLACE, a, c)
            & (c != a)
            & (c != b)
            & t.edge(HB, a, c)
            & t.edge(HB, c, b)
        {
            return true;
        }
    }
    false
}

// vse(a,b): a hb b, a write, b read, same place, no write c of that place, neither a nor b, with a hb c hb b.
pub fn vse(t: Table, a: usize, b: usize) -> bool
    ensures { result ≡ on t.entry vse a b }
{
    t.edge(HB, a, b) & t.is(WRITE, a) & t.is(READ, b) & t.edge(PLACE, a, b) & !hidden(t, a, b)
}

// Some a with v mo a mo c and b hb a.
fn passed_by(t: Table, v: usize, c: usize, b: usize) -> bool
    ensures { result ≡ on t.entry passed_by v c b }
{
    for a in 0..t.n {
        if t.edge(MO, v, a) & t.edge(MO, a, c) & t.edge(HB, b, a) {
            return true;
        }
    }
    false
}

// c=v, or v mo c, not b hb c, and no a with v mo a mo c and b hb a.
fn sees(t: Table, v: usize, c: usize, b: usize) -> bool
    ensures { result ≡ on t.entry sees v c b }
{
    (c == v) | (t.edge(MO, v, c) & !t.edge(HB, b, c) & !passed_by(t, v, c, b))
}

// For some v with vse(v,b) the above.
fn seen(t: Table, c: usize, b: usize) -> bool
    ensures { result ≡ on t.entry seen c b }
{
    for v in 0..t.n {
        if t.edge(VSE, v, b) && sees(t, v, c, b) {
            return true;
        }
    }
    false
}

// vsse(c,b): b a read at an atomic place and for some v with vse(v,b): c=v, or v mo c, not b hb c, and no a with v mo a mo c and b hb a.
pub fn vsse(t: Table, c: usize, b: usize) -> bool
    ensures { result ≡ on t.entry vsse c b }
{
    t.is(READ, b) & t.is(AT_ATOMIC, b) & seen(t, c, b)
}

// ---- races

// Data race: different threads, same place, one a write, not both atomic actions, no hb either way.
pub fn data_race(t: Table, a: usize, b: usize) -> bool
    ensures { result ≡ on t.entry data_races a b }
{
    !t.edge(THREAD, a, b)
        & t.edge(PLACE, a, b)
        & (t.is(WRITE, a) | t.is(WRITE, b))
        & !(t.is(ATOMIC, a) & t.is(ATOMIC, b))
        & !t.edge(HB, a, b)
        & !t.edge(HB, b, a)
}

// Unsequenced race: two different plain accesses (6, 7), same thread and place, one a write, no sb either way.
pub fn unsequenced_race(t: Table, a: usize, b: usize) -> bool
    ensures { result ≡ on t.entry unsequenced_races a b }
{
    (b != a)
        & t.is(PLAIN, a)
        & t.is(PLAIN, b)
        & t.edge(THREAD, a, b)
        & t.edge(PLACE, a, b)
        & (t.is(WRITE, a) | t.is(WRITE, b))
        & !t.edge(SB, a, b)
        & !t.edge(SB, b, a)
}
