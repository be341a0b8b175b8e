// Rules 1 to 16 but for the orders (4, 6, 10 and 14): the offences in the row of an action, of the edges and the mutexes.
ghost use Rattle.std.specs.Prelude.{◌≡◌, ◌&&◌, not, eqb};
ghost use Rattle.rows.specs.Numbers.{has, held};
ghost use Rattle.model.specs.Model.{rule1, rule2, rule3, rule5, rule7, rule8, rule9, rule11, rule12, rule13, rule15, rule16, sc_pair, writes_of, Sc};
ghost use Rattle.desk.specs.Reading.{over};
ghost use Rattle.rules.specs.Promises.{Offences, Bad};

use desk::{Desk, HANDOVER};
use model::{
    AT_ATOMIC, AT_MUTEX, AT_PLAIN, ATOMIC, ATOMIC_LOAD, ATOMIC_STORE, CD, DD, FENCE, HB, ITHB,
    LOAD_ORDER, LOCK, MO, PLACE, PLAIN, SB, SC, SC_ACTION, STORE_ORDER, THREAD, UNLOCK, WORDS,
    WRITE,
};
use rows::Row;

// A rule about one action a offends at (a,a): if a is among the bad.
pub fn one_row(bad: Row, a: usize) -> Row
    ensures { has result ≡ (λ b. eqb b a && has bad a) }
{
    bad.at(a)
}

// Atomic load has order 1, 2, 3 or 6; atomic store 1, 4 or 6.
pub fn rule1_bad(desk: &Desk) -> Row
    ensures { over desk.now (Bad rule1) result }
{
    let loads = desk
        .row(WORDS, ATOMIC_LOAD)
        .minus(desk.row(WORDS, LOAD_ORDER));
    let stores = desk
        .row(WORDS, ATOMIC_STORE)
        .minus(desk.row(WORDS, STORE_ORDER));
    loads.or(stores)
}

// The same in the row of a.
pub fn rule1_row(desk: &Desk, a: usize) -> Row
    ensures { over desk.now (Offences rule1) a result }
{
    one_row(rule1_bad(desk), a)
}

// Mutex place: only 1, 2. Non-atomic: 6, 7. Atomic: 3 to 7.
pub fn rule2_bad(desk: &Desk) -> Row
    ensures { over desk.now (Bad rule2) result }
{
    let plain = desk.row(WORDS, PLAIN);
    let turns = desk.row(WORDS, LOCK).or(desk.row(WORDS, UNLOCK));
    let mutex = desk.row(WORDS, AT_MUTEX).minus(turns);
    let bare = desk.row(WORDS, AT_PLAIN).minus(plain);
    let atomic = desk
        .row(WORDS, AT_ATOMIC)
        .minus(desk.row(WORDS, ATOMIC).or(plain));
    mutex.or(bare).or(atomic)
}

// The same in the row of a.
pub fn rule2_row(desk: &Desk, a: usize) -> Row
    ensures { over desk.now (Offences rule2) a result }
{
    one_row(rule2_bad(desk), a)
}

// sb, dd, cd edges stay in a thread.
pub fn rule3_row(desk: &Desk, a: usize) -> Row
    ensures { over desk.now (Offences rule3) a result }
{
    desk.row(SB, a)
        .or(desk.row(DD, a))
        .or(desk.row(CD, a))
        .minus(desk.row(THREAD, a))
}

// dd ⊆ sb.
pub fn rule5_row(desk: &Desk, a: usize) -> Row
    ensures { over desk.now (Offences rule5) a result }
{
    desk.row(DD, a).minus(desk.row(SB, a))
}

// An unlock's immediate predecessor there exists and is a lock of its thread.
pub fn rule7_row(desk: &Desk, a: usize) -> Row
    ensures { over desk.now (Offences rule7) a result }
{
    let unlocks = desk.row(WORDS, UNLOCK);
    let locks = desk.row(WORDS, LOCK).only_if(unlocks.contains(a));
    let locked = rows::join_in(locks, desk.notes, HANDOVER, desk.book, THREAD, desk.n);
    one_row(unlocks.minus(locked), a)
}

// A lock's immediate predecessor p there, if any, is an unlock: offends at (p,lock).
pub fn rule8_row(desk: &Desk, a: usize) -> Row
    ensures { over desk.now (Offences rule8) a result }
{
    let unlocks = desk.row(WORDS, UNLOCK).contains(a);
    desk.note(HANDOVER, a)
        .and(desk.row(WORDS, LOCK))
        .only_if(!unlocks)
}

// ithb has no a→a.
pub fn rule9_row(desk: &Desk, a: usize) -> Row
    ensures { over desk.now (Offences rule9) a result }
{
    one_row(desk.row(ITHB, a), a)
}

// Edges of relation k between SC actions that sc lacks.
fn unordered_row(d: &[u64], k: u32, n: usize, a: usize) -> Row
    ensures { has result ≡ (λ b. sc_pair n (held d.now) a b && held d.now k a b && not (Sc n (held d.now) a b)) }
{
    let acts = rows::load(d, WORDS, SC_ACTION);
    let inside = acts.only_if(acts.contains(a));
    let edges = rows::load(d, k, a);
    let sc = rows::load(d, SC, a);
    inside.and(edges).minus(sc)
}

// hb between SC actions ⊆ sc.
pub fn rule11_row(desk: &Desk, a: usize) -> Row
    ensures { over desk.now (Offences rule11) a result }
{
    unordered_row(desk.book, HB, desk.n, a)
}

// mo between SC actions ⊆ sc.
pub fn rule12_row(desk: &Desk, a: usize) -> Row
    ensures { over desk.now (Offences rule12) a result }
{
    unordered_row(desk.book, MO, desk.n, a)
}

// The writes of the atomic place that a writes.
pub fn writes_of_row(d: &[u64], n: usize, a: usize) -> Row
    ensures { has result ≡ writes_of n (held d.now) a }
{
    let writes = rows::load(d, WORDS, WRITE);
    let atomics = rows::load(d, WORDS, AT_ATOMIC);
    rows::load(d, PLACE, a)
        .only_if(atomics.contains(a))
        .only_if(writes.contains(a))
        .and(writes)
}

// mo edges join different writes of one atomic place.
pub fn rule13_row(desk: &Desk, a: usize) -> Row
    ensures { over desk.now (Offences rule13) a result }
{
    desk.row(MO, a)
        .minus(writes_of_row(desk.book, desk.n, a).without(a))
}

// hb between those writes ⊆ mo.
pub fn rule15_row(desk: &Desk, a: usize) -> Row
    ensures { over desk.now (Offences rule15) a result }
{
    writes_of_row(desk.book, desk.n, a)
        .and(desk.row(HB, a))
        .minus(desk.row(MO, a))
}

// sb;(sc between fences);sb between those writes ⊆ mo.
pub fn rule16_row(desk: &Desk, a: usize) -> Row
    ensures { over desk.now (Offences rule16) a result }
{
    let fences = desk.row(WORDS, FENCE);
    writes_of_row(desk.book, desk.n, a)
        .and(desk::sb_fences_sb_row(desk.book, fences, desk.n, a))
        .minus(desk.row(MO, a))
}
