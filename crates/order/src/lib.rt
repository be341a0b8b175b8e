// The serial order: when it is due, and the greedy order of hb and sc, read off a desk that holds the filled book.
#![tactic(auto)]

ghost use Rattle.std.specs.Prelude.{◌≡◌, ◌≤◌, ltb, length};
ghost use Rattle.rows.specs.Numbers.{size, has, held};
ghost use Rattle.model.specs.Judge.{none_loose, precedes, next, greedy};
ghost use Rattle.order.specs.Steps.{unpreceded, onto, strong, suited, due_for};

use desk::unsequenced_row;
use model::{AT_ATOMIC, ATOMIC, FENCE, HB, PLAIN, SC, SEQ_CST, Verdict, WORDS};
use rows::{Row, join, load};

// The members that no member precedes under hb or sc.
fn free(d: &[u64], n: usize, left: Row) -> Row
    ensures { has result ≡ unpreceded n (precedes n (held d.now)) (has left) }
{
    let after_hb = join(left, d, HB, n);
    let after_sc = join(left, d, SC, n);
    left.minus(after_hb.or(after_sc))
}

// The lowest-numbered action left with no predecessor left, or n.
pub fn next(d: &[u64], n: usize, left: Row) -> usize
    requires { n ≤ size }
    ensures { result ≡ next n (precedes n (held d.now)) (has left) }
{
    free(d, n, left).lowest().min(n)
}

// The greedy order of the n actions into the first bytes of the buffer; the rest stay.
pub fn serial(d: &[u64], n: usize, order: &mut [u8])
    requires { (n ≤ size) × (n ≤ length order.old) }
    ensures { order.new ≡ onto (greedy n (precedes n (held d.now)) n (λ a. ltb a n)) order.old }
{
    let mut left = Row::full().before(n);
    // No loop over the members: the next is one that none of those left precedes, and not the lowest.
    for i in 0..n {
        let a = next(d, n, left);
        if a >= n {
            return;
        }
        order[i] = a as u8;
        left = left.without(a);
    }
}

// No fence, and each of these actions is one of those.
fn is_strong(d: &[u64], n: usize, these: Row, those: Row) -> bool
    requires { n ≤ size }
    ensures { result ≡ strong n (held d.now) (has these) (has those) }
{
    let fences = load(d, WORDS, FENCE);
    let unfit = these.minus(those);
    fences.or(unfit).before(n).is_empty()
}

// A plain and an atomic access of one thread at one place, one a write, are sequenced either way.
fn is_sequenced(d: &[u64], n: usize) -> bool
    requires { n ≤ size }
    ensures { result ≡ none_loose n (held d.now) }
{
    let atomics = load(d, WORDS, ATOMIC).before(n);
    for a in load(d, WORDS, PLAIN).before(n) {
        if !unsequenced_row(d, n, a, atomics).is_empty() {
            return false;
        }
    }
    true
}

// No fence, and the accesses are as the edition asks.
fn is_suited(d: &[u64], edition: usize, n: usize) -> bool
    requires { n ≤ size }
    ensures { result ≡ suited edition n (held d.now) }
{
    let atomics = load(d, WORDS, ATOMIC);
    let seq_cst = load(d, WORDS, SEQ_CST);
    if edition == 2 {
        is_strong(d, n, atomics, seq_cst) && is_sequenced(d, n)
    } else {
        is_strong(d, n, load(d, WORDS, AT_ATOMIC), atomics.and(seq_cst))
    }
}

// Whether the serial order is due, by the verdict and the counts that were found.
pub fn is_due(
    d: &[u64],
    edition: usize,
    n: usize,
    verdict: Verdict,
    indeterminate: u32,
    unsequenced: u32,
    races: u32,
) -> bool
    requires { n ≤ size }
    ensures { result ≡ due_for edition n (held d.now) verdict indeterminate unsequenced races }
{
    verdict == Verdict::Passed
        && races == 0
        && unsequenced == 0
        && indeterminate == 0
        && is_suited(d, edition, n)
}
