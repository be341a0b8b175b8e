// Relations 7 to 17, each filled pair by pair into its part of the store, and from there onto the table.
ghost use Rattle.std.specs.Prelude.{cond, ◌&&◌, ◌≡◌, ℕ, ◌+◌, ◌*◌, ◌-◌, ◌<◌, ◌≤◌, eqb, leb, ltb, length, get_or};
ghost use Rattle.rows.specs.Sets.{never, within, before, either};
ghost use Rattle.rows.specs.Numbers.{size, area, held};
ghost use Rattle.model.specs.Limits.{store_length, desk_length};
ghost use Rattle.model.specs.Model.{derived, enter, filled};
ghost use Rattle.slow.specs.Searches.{Sequences, steps};
ghost use Rattle.table.specs.Reading.{on};

use crate::derived;
use model::{CAD, DATA_RACES, DOB, HB, HRS, ITHB, RS, SW, UNSEQUENCED_RACES, VSE, VSSE};
use rows::AREA;
use table::walk::close;
use table::{Table, clear, mark, take};

// Whether a→b in relation k; for cad and ithb, whether a→b is a step of theirs.
fn step(k: u32, t: Table, a: usize, b: usize) -> bool
    ensures { 7 ≤ k → result ≡ get_or (on t.entry steps) (k - 7) never a b }
{
    match k {
        RS => derived::rs(t, a, b),
        HRS => derived::hrs(t, a, b),
        SW => derived::sw(t, a, b),
        CAD => derived::cad_step(t, a, b),
        DOB => derived::dob(t, a, b),
        ITHB => derived::ithb_step(t, a, b),
        HB => derived::hb(t, a, b),
        VSE => derived::vse(t, a, b),
        VSSE => derived::vsse(t, a, b),
        DATA_RACES => derived::data_race(t, a, b),
        UNSEQUENCED_RACES => derived::unsequenced_race(t, a, b),
        _ => false,
    }
}

// A row of the part gets the pairs (a,b) of which `step` says so, for one a.
fn fill_row(part: &mut [u64], k: u32, t: Table, a: usize)
    requires { (a < size) × (t.n ≤ size) × (7 ≤ k) × (length part.old ≡ area) }
    ensures { (x : ℕ) → held part.new 0 x ≡ cond (eqb x a) (either (held part.old 0 a) (before (get_or (on t.entry steps) (k - 7) never a) t.entry.n)) (held part.old 0 x) }
{
    for b in 0..t.n {
        mark(part, 0, a, b, step(k, t, a, b));
    }
}

// The part becomes all pairs of which `step` says so.
fn fill_steps(part: &mut [u64], k: u32, t: Table)
    requires { (t.n ≤ size) × (7 ≤ k) × (length part.old ≡ area) }
    ensures { held part.new 0 ≡ within t.entry.n (get_or (on t.entry steps) (k - 7) never) }
{
    clear(part);
    for a in 0..t.n {
        fill_row(part, k, t, a);
    }
}

// Relation k into its lent part: cad and ithb are the paths of their steps.
fn fill(part: &mut [u64], k: u32, t: Table)
    requires { (t.n ≤ size) × (7 ≤ k) × (length part.old ≡ area) × (9 ≤ k → on t Sequences) }
    ensures { held part.new 0 ≡ within t.entry.n (get_or (on t.entry derived) (k - 7) never) }
{
    if k == CAD || k == ITHB {
        let mut steps = [0u64; AREA];
        fill_steps(&mut steps, k, t);
        close(part, &steps, t.n);
        return;
    }
    fill_steps(part, k, t);
}

// Relation k into its part of the store, which is lent on to be filled, and from there onto the table.
fn derive_one(store: &mut [u64], t: &mut [u64], k: u32, n: usize)
    requires { (area * k + area ≤ length store.old) × (area * k + area ≤ length t.old) × (n ≤ size) × (7 ≤ k) × (9 ≤ k → Sequences n (held t.old)) }
    ensures t_after { held t.new ≡ enter n k (get_or (derived n (held t.old)) (k - 7) never) (held t.old) }
    ensures by_index { (j : ℕ) → held store.new j ≡ cond (eqb j k) (held t.new k) (held store.old j) }
{
    let from = AREA * (k as usize);
    let to = from + AREA;
    fill(&mut store[from..to], k, Table { numbers: t, n });
    take(t, store, k);
}

// Relations 7 to 17.
pub fn derive(store: &mut [u64], t: &mut [u64], n: usize)
    requires { (store_length ≤ length store.old) × (length t.old ≡ desk_length) × (n ≤ size) }
    ensures t_after { held t.new ≡ filled n (held t.old) }
    ensures by_index { (j : ℕ) → held store.new j ≡ cond (leb 7 j && ltb j 18) (held t.new j) (held store.old j) }
{
    for k in 7..18 {
        derive_one(store, t, k, n);
    }
}
