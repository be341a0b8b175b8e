// The table: relations by number, a bit to a pair, read and marked one pair at a time.
#![tactic(auto)]

ghost use Rattle.std.specs.Prelude.{cond, ◌&&◌, ◌≡◌, ℕ, ◌+◌, ◌*◌, ◌<◌, ◌≤◌, eqb, length};
ghost use Rattle.rows.specs.Sets.{none, either, when, single};
ghost use Rattle.rows.specs.Numbers.{size, area, held};

use model::WORDS;
use rows::{AREA, SIZE, WIDE, WIDTH};

pub mod walk;

// Whether a→b in relation k.
pub fn edge(t: &[u64], k: u32, a: usize, b: usize) -> bool
    ensures { result ≡ held t.now k a b }
{
    let from = AREA * (k as usize);
    if t.len() < from + AREA {
        return false;
    }
    if a < SIZE {
        if b < SIZE {
            let number = t[from + WIDE * a + b / WIDTH];
            return (number >> (b % WIDTH)) % 2 == 1;
        }
    }
    false
}

// The table as it is read, and how many actions it is of.
#[derive(Clone, Copy)]
pub struct Table<'a> {
    pub numbers: &'a [u64],
    pub n: usize,
}

impl<'a> Table<'a> {
    // Whether a→b in relation k.
    pub fn edge(self, k: u32, a: usize, b: usize) -> bool
        ensures { result ≡ held self.entry.numbers.now k a b }
    {
        edge(self.numbers, k, a, b)
    }

    // Whether action a has word w.
    pub fn is(self, w: usize, a: usize) -> bool
        ensures { result ≡ held self.entry.numbers.now 18 w a }
    {
        edge(self.numbers, WORDS, w, a)
    }
}

// a→b joins relation k, if p.
pub fn mark(t: &mut [u64], k: u32, a: usize, b: usize, p: bool)
    requires { (a < size) × (b < size) × (area * k + area ≤ length t.old) }
    ensures { (j x : ℕ) → held t.new j x ≡ cond (eqb j k && eqb x a) (either (held t.old k a) (when p (single b))) (held t.old j x) }
{
    let i = AREA * (k as usize) + WIDE * a + b / WIDTH;
    let number = t[i];
    if p {
        t[i] = number | (1 << (b % WIDTH));
    }
}

// A part becomes empty.
pub fn clear(part: &mut [u64])
    ensures { (k a : ℕ) → held part.new k a ≡ none }
{
    part.fill(0);
}

// Relation k of the table becomes that of a store.
pub fn take(t: &mut [u64], store: &[u64], k: u32)
    requires { (area * k + area ≤ length store.now) × (area * k + area ≤ length t.old) }
    ensures { (j : ℕ) → held t.new j ≡ cond (eqb j k) (held store.now k) (held t.old j) }
{
    let from = AREA * (k as usize);
    t[from..from + AREA].copy_from_slice(&store[from..from + AREA]);
}
