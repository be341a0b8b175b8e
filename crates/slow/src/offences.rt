// Rules 1 to 26, each for one pair, under the paper's sentence: whether it offends there. A rule about one action a offends at (a,a).
ghost use Rattle.std.specs.Prelude.{◌≡◌};
ghost use Rattle.rows.specs.Numbers.{held};
ghost use Rattle.model.specs.Model.{writes_of, sc_pair, sc_fence, up_to, unfed, rule1, rule2, rule3, rule4, rule5, rule6, rule7, rule8, rule9, rule10, rule11, rule12, rule13, rule14, rule15, rule16, rule17, rule18, rule19, rule20, rule21, rule22, rule23, rule24, rule25, rule26};
ghost use Rattle.slow.specs.Searches.{locked, fenced, fitting, other_source, reached, fed, stale, write_between};
ghost use Rattle.table.specs.Reading.{on};

use crate::orders::{MUTEX_SC, PLACE_MO, immediate, of_atomic, of_mutex, strict, total};
use model::{
    AT_ATOMIC, AT_MUTEX, AT_PLAIN, ATOMIC, ATOMIC_LOAD, ATOMIC_STORE, CD, DD, FENCE, HB, ITHB,
    LOAD_ORDER, LOCK, MO, PLACE, PLAIN, READ, RF, RMW, SB, SC, SC_ACTION, SEQ_CST, STORE_ORDER,
    THREAD, UNLOCK, VALUE, VSE, VSSE, WRITE,
};
use table::Table;

// ---- what the rules speak of

// Two writes of one atomic place.
fn writes_of(t: Table, a: usize, b: usize) -> bool
    ensures { result ≡ on t.entry writes_of a b }
{
    of_atomic(t, a, b) & t.is(WRITE, a) & t.is(WRITE, b)
}

// Two SC actions.
fn sc_pair(t: Table, a: usize, b: usize) -> bool
    ensures { result ≡ on t.entry sc_pair a b }
{
    t.is(SC_ACTION, a) & t.is(SC_ACTION, b)
}

// A seq_cst fence.
fn sc_fence(t: Table, f: usize) -> bool
    ensures { result ≡ on t.entry sc_fence f }
{
    t.is(FENCE, f) & t.is(SEQ_CST, f)
}

// y=a or a mo y.
fn up_to(t: Table, a: usize, y: usize) -> bool
    ensures { result ≡ on t.entry up_to a y }
{
    (a == y) | t.edge(MO, a, y)
}

// ---- the rules

// 1. Atomic load has order 1, 2, 3 or 6; atomic store 1, 4 or 6.
pub fn rule1(t: Table, a: usize, b: usize) -> bool
    ensures { result ≡ on t.entry rule1 a b }
{
    if b != a {
        return false;
    }
    (t.is(ATOMIC_LOAD, a) & !t.is(LOAD_ORDER, a)) | (t.is(ATOMIC_STORE, a) & !t.is(STORE_ORDER, a))
}

// 2. Mutex place: only 1, 2. Non-atomic: 6, 7. Atomic: 3 to 7.
pub fn rule2(t: Table, a: usize, b: usize) -> bool
    ensures { result ≡ on t.entry rule2 a b }
{
    if b != a {
        return false;
    }
    (t.is(AT_MUTEX, a) & !(t.is(LOCK, a) | t.is(UNLOCK, a)))
        | (t.is(AT_PLAIN, a) & !t.is(PLAIN, a))
        | (t.is(AT_ATOMIC, a) & !(t.is(ATOMIC, a) | t.is(PLAIN, a)))
}

// 3. sb, dd, cd edges stay in a thread.
pub fn rule3(t: Table, a: usize, b: usize) -> bool
    ensures { result ≡ on t.entry rule3 a b }
{
    (t.edge(SB, a, b) | t.edge(DD, a, b) | t.edge(CD, a, b)) & !t.edge(THREAD, a, b)
}

// 4. sb, dd, cd strict orders.
pub fn rule4(t: Table, a: usize, b: usize) -> bool
    ensures { result ≡ on t.entry rule4 a b }
{
    strict(t, SB, a, b) | strict(t, DD, a, b) | strict(t, CD, a, b)
}

// 5. dd ⊆ sb.
pub fn rule5(t: Table, a: usize, b: usize) -> bool
    ensures { result ≡ on t.entry rule5 a b }
{
    t.edge(DD, a, b) & !t.edge(SB, a, b)
}

// 6. sc kept to one mutex's actions is total on them.
pub fn rule6(t: Table, a: usize, b: usize) -> bool
    ensures { result ≡ on t.entry rule6 a b }
{
    total(t, MUTEX_SC, a, b, of_mutex(t, a, b))
}

// Some p immediately before a there is a lock of a's thread.
fn locked(t: Table, a: usize) -> bool
    ensures { result ≡ on t.entry locked a }
{
    for p in 0..t.n {
        if immediate(t, MUTEX_SC, p, a) & t.is(LOCK, p) & t.edge(THREAD, p, a) {
            return true;
        }
    }
    false
}

// 7. An unlock's immediate predecessor there exists and is a lock of its thread.
pub fn rule7(t: Table, a: usize, b: usize) -> bool
    ensures { result ≡ on t.entry rule7 a b }
{
    if b != a {
        return false;
    }
    t.is(UNLOCK, a) & !locked(t, a)
}

// 8. A lock's immediate predecessor p there, if any, is an unlock: offends at (p,lock).
pub fn rule8(t: Table, p: usize, a: usize) -> bool
    ensures { result ≡ on t.entry rule8 p a }
{
    t.is(LOCK, a) & immediate(t, MUTEX_SC, p, a) & !t.is(UNLOCK, p)
}

// 9. ithb has no a→a.
pub fn rule9(t: Table, a: usize, b: usize) -> bool
    ensures { result ≡ on t.entry rule9 a b }
{
    if b != a {
        return false;
    }
    t.edge(ITHB, a, a)
}

// 10. sc total on the SC actions.
pub fn rule10(t: Table, a: usize, b: usize) -> bool
    ensures { result ≡ on t.entry rule10 a b }
{
    total(t, SC, a, b, sc_pair(t, a, b))
}

// 11. hb between SC actions ⊆ sc.
pub fn rule11(t: Table, a: usize, b: usize) -> bool
    ensures { result ≡ on t.entry rule11 a b }
{
    sc_pair(t, a, b) & t.edge(HB, a, b) & !t.edge(SC, a, b)
}

// 12. mo between SC actions ⊆ sc.
pub fn rule12(t: Table, a: usize, b: usize) -> bool
    ensures { result ≡ on t.entry rule12 a b }
{
    sc_pair(t, a, b) & t.edge(MO, a, b) & !t.edge(SC, a, b)
}

// 13. mo edges join different writes of one atomic place.
pub fn rule13(t: Table, a: usize, b: usize) -> bool
    ensures { result ≡ on t.entry rule13 a b }
{
    t.edge(MO, a, b) & !((b != a) & writes_of(t, a, b))
}

// 14. mo kept to one atomic place's actions is total on its writes.
pub fn rule14(t: Table, a: usize, b: usize) -> bool
    ensures { result ≡ on t.entry rule14 a b }
{
    total(t, PLACE_MO, a, b, writes_of(t, a, b))
}

// 15. hb between those writes ⊆ mo.
pub fn rule15(t: Table, a: usize, b: usize) -> bool
    ensures { result ≡ on t.entry rule15 a b }
{
    writes_of(t, a, b) & t.edge(HB, a, b) & !t.edge(MO, a, b)
}

// sb;(sc between fences);sb
fn fenced(t: Table, a: usize, b: usize) -> bool
    ensures { result ≡ on t.entry fenced a b }
{
    for f in 0..t.n {
        if t.edge(SB, a, f) & t.is(FENCE, f) {
            for g in 0..t.n {
                if t.is(FENCE, g) & t.edge(SC, f, g) & t.edge(SB, g, b) {
                    return true;
                }
            }
        }
    }
    false
}

// 16. sb;(sc between fences);sb between those writes ⊆ mo.
pub fn rule16(t: Table, a: usize, b: usize) -> bool
    ensures { result ≡ on t.entry rule16 a b }
{
    writes_of(t, a, b) & fenced(t, a, b) & !t.edge(MO, a, b)
}

// Mutex: unlock to lock; elsewhere value written = value read, and write to read.
fn fitting(t: Table, a: usize, b: usize) -> bool
    ensures { result ≡ on t.entry fitting a b }
{
    (t.is(AT_MUTEX, a) & (t.is(UNLOCK, a) & t.is(LOCK, b)))
        | (!t.is(AT_MUTEX, a) & (t.edge(VALUE, a, b) & t.is(WRITE, a) & t.is(READ, b)))
}

// 17. rf edge: same place, different ends, value written = value read (absent on both for a mutex); mutex: unlock to lock; elsewhere write to read.
pub fn rule17(t: Table, a: usize, b: usize) -> bool
    ensures { result ≡ on t.entry rule17 a b }
{
    t.edge(RF, a, b) & !(t.edge(PLACE, a, b) & (b != a) & fitting(t, a, b))
}

// Some source of b other than a.
fn other_source(t: Table, a: usize, b: usize) -> bool
    ensures { result ≡ on t.entry other_source a b }
{
    for c in 0..t.n {
        if (c != a) & t.edge(RF, c, b) {
            return true;
        }
    }
    false
}

// 18. One rf source at most: every edge into a target with two offends.
pub fn rule18(t: Table, a: usize, b: usize) -> bool
    ensures { result ≡ on t.entry rule18 a b }
{
    t.edge(RF, a, b) & other_source(t, a, b)
}

// Some a with a→b in relation k.
pub fn reached(t: Table, k: u32, b: usize) -> bool
    ensures { result ≡ on t.entry reached k b }
{
    for a in 0..t.n {
        if t.edge(k, a, b) {
            return true;
        }
    }
    false
}

// b reads from some a with a→b in relation k.
fn fed(t: Table, k: u32, b: usize) -> bool
    ensures { result ≡ on t.entry fed k b }
{
    for a in 0..t.n {
        if t.edge(k, a, b) & t.edge(RF, a, b) {
            return true;
        }
    }
    false
}

// If some a→b in relation k, b doesn't read from such an a; else it reads from something.
fn unfed(t: Table, k: u32, b: usize) -> bool
    ensures { result ≡ on t.entry unfed (held t.entry.numbers.now k) b }
{
    (reached(t, k, b) & !fed(t, k, b)) | (!reached(t, k, b) & reached(t, RF, b))
}

// 19. Read b at a non-atomic place: if some vse(a,b), b reads from such an a; else from nothing.
pub fn rule19(t: Table, a: usize, b: usize) -> bool
    ensures { result ≡ on t.entry rule19 a b }
{
    if b != a {
        return false;
    }
    t.is(READ, b) & t.is(AT_PLAIN, b) & unfed(t, VSE, b)
}

// 20. Read b at an atomic place: the same with vsse, nothing if it has no vse.
pub fn rule20(t: Table, a: usize, b: usize) -> bool
    ensures { result ≡ on t.entry rule20 a b }
{
    if b != a {
        return false;
    }
    t.is(READ, b) & t.is(AT_ATOMIC, b) & unfed(t, VSSE, b)
}

// x rf a, y rf b for some x and y, and neither x=y nor x mo y.
fn stale(t: Table, a: usize, b: usize) -> bool
    ensures { result ≡ on t.entry stale a b }
{
    for x in 0..t.n {
        if t.edge(RF, x, a) {
            for y in 0..t.n {
                if t.edge(RF, y, b) & !up_to(t, x, y) {
                    return true;
                }
            }
        }
    }
    false
}

// 21. x rf a, y rf b, a hb b, one atomic place: x=y or x mo y. Offends at (a,b).
pub fn rule21(t: Table, a: usize, b: usize) -> bool
    ensures { result ≡ on t.entry rule21 a b }
{
    stale(t, a, b) & t.edge(HB, a, b) & of_atomic(t, a, b)
}

// 22. RMW b, a rf b: a is the immediate mo predecessor.
pub fn rule22(t: Table, a: usize, b: usize) -> bool
    ensures { result ≡ on t.entry rule22 a b }
{
    t.is(RMW, b) & t.edge(RF, a, b) & !immediate(t, MO, a, b)
}

// Some write of b's place between a and b in sc.
fn write_between(t: Table, a: usize, b: usize) -> bool
    ensures { result ≡ on t.entry write_between a b }
{
    for c in 0..t.n {
        if t.is(WRITE, c) & t.edge(PLACE, c, b) & t.edge(SC, a, c) & t.edge(SC, c, b) {
            return true;
        }
    }
    false
}

// 23. a rf b, both seq_cst: a sc b and no write of that place between in sc.
pub fn rule23(t: Table, a: usize, b: usize) -> bool
    ensures { result ≡ on t.entry rule23 a b }
{
    t.edge(RF, a, b)
        & t.is(SEQ_CST, a)
        & t.is(SEQ_CST, b)
        & !(t.edge(SC, a, b) & !write_between(t, a, b))
}

// 24. y rf b, seq_cst fence f sb b, b atomic, write a of b's place, a sc f: y=a or a mo y.
pub fn rule24(t: Table, y: usize, b: usize) -> bool
    ensures { result ≡ on t.entry rule24 y b }
{
    if !(t.edge(RF, y, b) & t.is(ATOMIC, b)) {
        return false;
    }
    for a in 0..t.n {
        if t.is(WRITE, a) & t.edge(PLACE, a, b) & !up_to(t, a, y) {
            for f in 0..t.n {
                if sc_fence(t, f) & t.edge(SB, f, b) & t.edge(SC, a, f) {
                    return true;
                }
            }
        }
    }
    false
}

// 25. y rf b, b atomic, atomic write a of b's place, a sb f, f a seq_cst fence, f sc b: the same.
pub fn rule25(t: Table, y: usize, b: usize) -> bool
    ensures { result ≡ on t.entry rule25 y b }
{
    if !(t.edge(RF, y, b) & t.is(ATOMIC, b)) {
        return false;
    }
    for a in 0..t.n {
        if t.is(ATOMIC, a) & t.is(WRITE, a) & t.edge(PLACE, a, b) & !up_to(t, a, y) {
            for f in 0..t.n {
                if t.edge(SB, a, f) & sc_fence(t, f) & t.edge(SC, f, b) {
                    return true;
                }
            }
        }
    }
    false
}

// 26. y rf b, b atomic, atomic write a of b's place, a sb f, f sc g, g sb b, both seq_cst fences: the same.
pub fn rule26(t: Table, y: usize, b: usize) -> bool
    ensures { result ≡ on t.entry rule26 y b }
{
    if !(t.edge(RF, y, b) & t.is(ATOMIC, b)) {
        return false;
    }
    for a in 0..t.n {
        if t.is(ATOMIC, a) & t.is(WRITE, a) & t.edge(PLACE, a, b) & !up_to(t, a, y) {
            for f in 0..t.n {
                if t.edge(SB, a, f) & sc_fence(t, f) {
                    for g in 0..t.n {
                        if t.edge(SC, f, g) & sc_fence(t, g) & t.edge(SB, g, b) {
                            return true;
                        }
                    }
                }
            }
        }
    }
    false
}
