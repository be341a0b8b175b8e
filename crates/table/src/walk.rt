// Paths: from each action, walk along the steps.
ghost use Rattle.std.specs.Prelude.{cond, ◌≡◌, ℕ, ◌<◌, ◌≤◌, eqb, length};
ghost use Rattle.rows.specs.Sets.{none, least, less, either, before, within, closure};
ghost use Rattle.rows.specs.Numbers.{size, area, held};

use crate::{clear, edge, mark};
use rows::AREA;

// The least action that is reached from a and not yet followed, or n.
fn next(reached: &[u64], followed: &[u64], n: usize, a: usize) -> usize
    ensures { result ≡ least n (less (held reached.now 0 a) (held followed.now 0 a)) }
{
    for c in 0..n {
        if edge(reached, 0, a, c) & !edge(followed, 0, a, c) {
            return c;
        }
    }
    n
}

// From c, one step of relation k on: what it leads to is reached from a.
fn follow(reached: &mut [u64], t: &[u64], k: u32, n: usize, a: usize, c: usize)
    requires { (a < size) × (n ≤ size) × (length reached.old ≡ area) }
    ensures { (x : ℕ) → held reached.new 0 x ≡ cond (eqb x a) (either (held reached.old 0 a) (before (held t.now k c) n)) (held reached.old 0 x) }
{
    for b in 0..n {
        mark(reached, 0, a, b, edge(t, k, c, b));
    }
}

// Walks from a: a is followed, and then whatever is reached, until nothing is left to follow; n steps are enough, since each follows another action.
pub fn walk(reached: &mut [u64], t: &[u64], k: u32, n: usize, a: usize)
    requires { (a < n) × (n ≤ size) × (length reached.old ≡ area) × (held reached.old 0 a ≡ none) }
    ensures { (x : ℕ) → held reached.new 0 x ≡ cond (eqb x a) (before (closure n (held t.now k) a) n) (held reached.old 0 x) }
{
    let mut followed = [0u64; AREA];
    let mut c = a;
    for _ in 0..n {
        if n <= c {
            return;
        }
        mark(&mut followed, 0, a, c, true);
        follow(reached, t, k, n, a, c);
        c = next(reached, &followed, n, a);
    }
}

// The part becomes the closure of the steps: a walk from each action.
pub fn close(part: &mut [u64], steps: &[u64], n: usize)
    requires { (n ≤ size) × (length part.old ≡ area) }
    ensures { held part.new 0 ≡ within n (closure n (held steps.now 0)) }
{
    clear(part);
    for a in 0..n {
        walk(part, steps, 0, n, a);
    }
}

// Whether steps of relation k lead from a back to a.
pub fn comes_back(t: &[u64], k: u32, n: usize, a: usize) -> bool
    requires { (a < n) × (n ≤ size) }
    ensures { result ≡ closure n (held t.now k) a a }
{
    let mut reached = [0u64; AREA];
    walk(&mut reached, t, k, n, a);
    edge(&reached, 0, a, a)
}
