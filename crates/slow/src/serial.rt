// The serial order, step by step: when it is due, and at each step the lowest-numbered action left with no predecessor left.
ghost use Rattle.std.specs.Prelude.{not, ◌&&◌, ◌≡◌, ◌≤◌, ltb, length};
ghost use Rattle.rows.specs.Sets.{any};
ghost use Rattle.rows.specs.Numbers.{size, held};
ghost use Rattle.model.specs.Model.{fence};
ghost use Rattle.model.specs.Judge.{loose, strong_places, strong_actions, none_loose, fit, due_for, precedes, next, greedy, onto};
ghost use Rattle.slow.specs.Searches.{left, preceded};
ghost use Rattle.table.specs.Reading.{on};

use model::{AT_ATOMIC, ATOMIC, FENCE, HB, PLACE, PLAIN, SB, SC, SEQ_CST, THREAD, Verdict, WRITE};
use rows::AREA;
use table::{Table, edge, mark};

// ---- when it is due

// Some action is a fence.
fn has_fence(t: Table) -> bool
    ensures { result ≡ any t.entry.n (on t.entry fence) }
{
    for a in 0..t.n {
        if t.is(FENCE, a) {
            return true;
        }
    }
    false
}

// Edition 1: every action at an atomic place is a seq_cst atomic action.
fn strong_places(t: Table) -> bool
    ensures { result ≡ on t.entry strong_places }
{
    for a in 0..t.n {
        if t.is(AT_ATOMIC, a) & !(t.is(ATOMIC, a) & t.is(SEQ_CST, a)) {
            return false;
        }
    }
    true
}

// Edition 2: every atomic action is seq_cst,
fn strong_actions(t: Table) -> bool
    ensures { result ≡ on t.entry strong_actions }
{
    for a in 0..t.n {
        if t.is(ATOMIC, a) & !t.is(SEQ_CST, a) {
            return false;
        }
    }
    true
}

// A plain and an atomic access of one thread at one place, one a write, with no sb either way.
fn loose(t: Table, a: usize, b: usize) -> bool
    ensures { result ≡ on t.entry loose a b }
{
    t.is(PLAIN, a)
        & t.is(ATOMIC, b)
        & t.edge(THREAD, a, b)
        & t.edge(PLACE, a, b)
        & (t.is(WRITE, a) | t.is(WRITE, b))
        & !t.edge(SB, a, b)
        & !t.edge(SB, b, a)
}

// and a plain and an atomic access of one thread at one place, one a write, are sequenced either way.
fn none_loose(t: Table) -> bool
    ensures { result ≡ on t.entry none_loose }
{
    for a in 0..t.n {
        for b in 0..t.n {
            if loose(t, a, b) {
                return false;
            }
        }
    }
    true
}

// The accesses are as the edition asks.
fn fits(t: Table, edition: usize) -> bool
    ensures { result ≡ on t.entry (fit edition) }
{
    if edition == 2 {
        return strong_actions(t) & none_loose(t);
    }
    strong_places(t)
}

// The serial order is due exactly when the candidate is passed, has no race, no indeterminate read and no fence, and its accesses are as the edition asks.
pub fn is_due(
    t: Table,
    edition: usize,
    verdict: Verdict,
    indeterminate: u32,
    unsequenced: u32,
    races: u32,
) -> bool
    ensures { result ≡ on t.entry (due_for edition) verdict indeterminate unsequenced races }
{
    match verdict {
        Verdict::Passed => {
            return (races == 0)
                & (unsequenced == 0)
                & (indeterminate == 0)
                & (!has_fence(t) & fits(t, edition));
        }
        Verdict::Broken {
            rule: _,
            a: _,
            b: _,
            middle: _,
        } => {
            return false;
        }
    }
}

// ---- the order

// Whether a is one of the n actions and not yet given.
fn is_left(given: &[u64], n: usize, a: usize) -> bool
    ensures { result ≡ left n (held given.now 0 0) a }
{
    (a < n) & !edge(given, 0, 0, a)
}

// Some z left precedes a under hb ∪ sc.
fn preceded(t: Table, given: &[u64], a: usize) -> bool
    ensures { result ≡ on t.entry preceded (held given.now 0 0) a }
{
    for z in 0..t.n {
        if is_left(given, t.n, z) & (t.edge(HB, z, a) | t.edge(SC, z, a)) {
            return true;
        }
    }
    false
}

// The lowest-numbered action left with no predecessor left, or n.
fn next(t: Table, given: &[u64]) -> usize
    ensures { result ≡ next t.entry.n (on t.entry precedes) (left t.entry.n (held given.now 0 0)) }
{
    for a in 0..t.n {
        if is_left(given, t.n, a) & !preceded(t, given, a) {
            return a;
        }
    }
    t.n
}

// The order of the n actions into the first bytes of the buffer; the rest stay.
pub fn serial(t: Table, order: &mut [u8])
    requires { (t.n ≤ size) × (t.n ≤ length order.old) }
    ensures { order.new ≡ onto (greedy t.entry.n (on t.entry precedes) t.entry.n (λ a. ltb a t.entry.n)) order.old }
{
    let mut given = [0u64; AREA];
    for i in 0..t.n {
        let a = next(t, &given);
        if a < t.n {
            order[i] = a as u8;
            mark(&mut given, 0, 0, a, true);
        } else {
            return;
        }
    }
}
