// The words of the model, each for one action, and same place, same thread and same value for two: laid on the table pair by pair.
ghost use Rattle.std.specs.Prelude.{cond, ◌&&◌, ◌≡◌, ℕ, ◌+◌, ◌*◌, ◌<◌, ◌≤◌, eqb, ltb, length, get_or};
ghost use Rattle.rows.specs.Sets.{none, either, before};
ghost use Rattle.rows.specs.Numbers.{size, area, held};
ghost use Rattle.model.specs.Limits.{store_length, desk_length};
ghost use Rattle.model.specs.Words.{is_sc, acquires, releases, consumes, placed, word, book_from};
ghost use Rattle.slow.specs.Laying.{entry, row, laid};

use model::limits::MOST_ACTIONS;
use model::{
    ACQUIRE, AT_ATOMIC, AT_MUTEX, AT_PLAIN, ATOMIC, ATOMIC_LOAD, ATOMIC_STORE, Action, CONSUME,
    FENCE, LOAD_ORDER, LOCK, PLACE, PLAIN, READ, RELEASE, RMW, SC_ACTION, SEQ_CST, STORE_ORDER,
    THREAD, UNLOCK, VALUE, WORDS, WRITE,
};
use table::{mark, take};

// ---- words of one action

// Kinds: 1 lock, 2 unlock, 3 atomic load, 4 atomic store, 5 atomic read-modify-write (RMW), 6 load, 7 store, 8 fence.
// Orders: 1 relaxed, 2 consume, 3 acquire, 4 release, 5 acq_rel, 6 seq_cst; 0 for kinds 1, 2, 6 and 7.

// SC action: seq_cst, lock or unlock.
fn is_sc(x: Action) -> bool
    ensures { result ≡ is_sc x }
{
    (x.what.order() == 6) | (x.what.number() == 1) | (x.what.number() == 2)
}

// Acquire: a read or fence of acquire, acq_rel or seq_cst; a consume fence; a lock.
fn acquires(x: Action) -> bool
    ensures { result ≡ acquires x }
{
    let o = x.what.order();
    ((x.what.reads() | x.what.is_fence()) & ((o == 3) | (o == 5) | (o == 6)))
        | (x.what.is_fence() & (o == 2))
        | (x.what.number() == 1)
}

// Release: a write or fence of release, acq_rel or seq_cst; an unlock.
fn releases(x: Action) -> bool
    ensures { result ≡ releases x }
{
    let o = x.what.order();
    ((x.what.writes() | x.what.is_fence()) & ((o == 4) | (o == 5) | (o == 6)))
        | (x.what.number() == 2)
}

// Consume: a read of order consume.
fn consumes(x: Action) -> bool
    ensures { result ≡ consumes x }
{
    x.what.reads() & (x.what.order() == 2)
}

// The orders that rule 1 gives an atomic load: 1, 2, 3 or 6.
#[tactic(auto, unfolding(model::specs::Words::word))]
fn load_order(x: Action) -> bool
    ensures { result ≡ word 18 x 3 }
{
    let o = x.what.order();
    (o == 1) | (o == 2) | (o == 3) | (o == 6)
}

// The orders that rule 1 gives an atomic store: 1, 4 or 6.
#[tactic(auto, unfolding(model::specs::Words::word))]
fn store_order(x: Action) -> bool
    ensures { result ≡ word 19 x 3 }
{
    let o = x.what.order();
    (o == 1) | (o == 4) | (o == 6)
}

// Whether an action at a place of kind q (0 mutex, 1 non-atomic, 2 atomic) has word w.
#[tactic(auto, unfolding(model::specs::Words::word))]
fn word(w: usize, x: Action, q: u8) -> bool
    ensures { result ≡ word w x q }
{
    match w {
        READ => x.what.reads(),
        WRITE => x.what.writes(),
        ATOMIC => x.what.is_atomic(),
        PLAIN => x.what.is_plain(),
        FENCE => x.what.is_fence(),
        LOCK => x.what.number() == 1,
        UNLOCK => x.what.number() == 2,
        RMW => x.what.number() == 5,
        SEQ_CST => x.what.order() == 6,
        SC_ACTION => is_sc(x),
        ACQUIRE => acquires(x),
        RELEASE => releases(x),
        CONSUME => consumes(x),
        AT_MUTEX => q == 0,
        AT_PLAIN => q == 1,
        AT_ATOMIC => q == 2,
        ATOMIC_LOAD => x.what.number() == 3,
        ATOMIC_STORE => x.what.number() == 4,
        LOAD_ORDER => load_order(x),
        STORE_ORDER => store_order(x),
        _ => false,
    }
}

// How many words of one action there are.
const WORD_COUNT: usize = 20;

// ---- words of two actions

// Same place: both have a place and it is equal.
fn same_place(x: Action, y: Action) -> bool
    ensures { result ≡ placed x y }
{
    !x.what.is_fence() & !y.what.is_fence() & (x.place == y.place)
}

// ---- on the table

// The kind of place p; a fence's has none, 3.
fn place_kind(places: &[u8], p: u16) -> u8
    ensures { result ≡ get_or places.now p 3 }
{
    let i = p as usize;
    if i < places.len() {
        return places[i];
    }
    3
}

// What stands at (a,b) of part k, where b is the action y, at a place of kind q: whether y has word a; or whether the action x, which a is, has its place or its thread, or writes what y reads.
fn entry(k: u32, a: usize, x: Action, y: Action, q: u8) -> bool
    ensures { result ≡ entry k a x y q }
{
    match k {
        WORDS => word(a, y, q),
        PLACE => same_place(x, y),
        THREAD => x.thread == y.thread,
        VALUE => x.written == y.read,
        _ => false,
    }
}

// Row a of part k.
fn lay_row(t: &mut [u64], k: u32, acts: [Action; MOST_ACTIONS], places: &[u8], n: usize, a: usize)
    requires { (n ≤ size) × (a < size) × (area * k + area ≤ length t.old) }
    ensures { (j x : ℕ) → held t.new j x ≡ cond (eqb j k && eqb x a) (either (held t.old k a) (before (row acts places.now k a) n)) (held t.old j x) }
{
    let x = acts[a];
    for b in 0..n {
        let y = acts[b];
        let q = place_kind(places, y.place);
        mark(t, k, a, b, entry(k, a, x, y, q));
    }
}

// Part k, whose rows are as many as are told.
fn lay_part(
    t: &mut [u64],
    k: u32,
    acts: [Action; MOST_ACTIONS],
    places: &[u8],
    n: usize,
    rows: usize,
)
    requires { (n ≤ size) × (rows ≤ size) × (area * k + area ≤ length t.old) × ((a : ℕ) → held t.old k a ≡ none) }
    ensures { (j : ℕ) → held t.new j ≡ cond (eqb j k) (laid n acts places.now k rows) (held t.old j) }
{
    for a in 0..rows {
        lay_row(t, k, acts, places, n, a);
    }
}

// The given relations, 0 to 6.
fn lay_given(t: &mut [u64], store: &[u64])
    requires { (length t.old ≡ desk_length) × (store_length ≤ length store.now) }
    ensures { (j : ℕ) → held t.new j ≡ cond (ltb j 7) (held store.now j) (held t.old j) }
{
    for k in 0..7 {
        take(t, store, k);
    }
}

// Lays the book of n actions on an empty table, with relations 0 to 6 of the store.
pub fn lay(t: &mut [u64], store: &[u64], acts: [Action; MOST_ACTIONS], places: &[u8], n: usize)
    requires { (n ≤ size) × (length t.old ≡ desk_length) × (store_length ≤ length store.now) × ((k a : ℕ) → held t.old k a ≡ none) }
    ensures { held t.new ≡ book_from n acts places.now (held store.now) }
{
    lay_given(t, store);
    lay_part(t, WORDS, acts, places, n, WORD_COUNT);
    lay_part(t, PLACE, acts, places, n, n);
    lay_part(t, THREAD, acts, places, n, n);
    lay_part(t, VALUE, acts, places, n, n);
}
