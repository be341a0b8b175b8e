// Orders, for one pair: what "strict order", "total on S" and "immediate" say, and the middle of a broken order.
ghost use Rattle.std.specs.Prelude.{◌≡◌};
ghost use Rattle.model.specs.Model.{of_mutex, of_atomic, mutex_sc, place_mo, strict, total, immediate, middle, deciding, middle_at};
ghost use Rattle.slow.specs.Searches.{relation, joined};
ghost use Rattle.table.specs.Reading.{on};

use model::{AT_ATOMIC, AT_MUTEX, CD, DD, MO, PLACE, SB, SC};
use table::Table;

// Two relations that rules 6 and 14 speak of, numbered after those of the table: sc kept to one mutex's actions, and mo kept to one atomic place's.
pub const MUTEX_SC: u32 = 22;

pub const PLACE_MO: u32 = 23;

// Two actions of one mutex.
pub fn of_mutex(t: Table, a: usize, b: usize) -> bool
    ensures { result ≡ on t.entry of_mutex a b }
{
    t.is(AT_MUTEX, a) & t.edge(PLACE, a, b)
}

// Two actions of one atomic place.
pub fn of_atomic(t: Table, a: usize, b: usize) -> bool
    ensures { result ≡ on t.entry of_atomic a b }
{
    t.is(AT_ATOMIC, a) & t.edge(PLACE, a, b)
}

// sc kept to one mutex's actions.
fn mutex_sc(t: Table, a: usize, b: usize) -> bool
    ensures { result ≡ on t.entry mutex_sc a b }
{
    of_mutex(t, a, b) & t.edge(SC, a, b)
}

// mo kept to one atomic place's actions.
fn place_mo(t: Table, a: usize, b: usize) -> bool
    ensures { result ≡ on t.entry place_mo a b }
{
    of_atomic(t, a, b) & t.edge(MO, a, b)
}

// Whether a→b in relation k of the table, or in one of the two after them.
fn leads(t: Table, k: u32, a: usize, b: usize) -> bool
    ensures { result ≡ on t.entry relation k a b }
{
    match k {
        MUTEX_SC => mutex_sc(t, a, b),
        PLACE_MO => place_mo(t, a, b),
        _ => t.edge(k, a, b),
    }
}

// k;l joins a k step and then an l step.
pub fn joined(t: Table, k: u32, l: u32, a: usize, b: usize) -> bool
    ensures { result ≡ on t.entry joined k l a b }
{
    for z in 0..t.n {
        if leads(t, k, a, z) & leads(t, l, z, b) {
            return true;
        }
    }
    false
}

// Immediate: no third element between.
pub fn immediate(t: Table, k: u32, a: usize, b: usize) -> bool
    ensures { result ≡ on t.entry immediate (on t.entry relation k) a b }
{
    leads(t, k, a, b) & !joined(t, k, k, a, b)
}

// "Strict order" offends at (a,b) if a→a with a=b, or a→z→b without a→b.
pub fn strict(t: Table, k: u32, a: usize, b: usize) -> bool
    ensures { result ≡ on t.entry strict (on t.entry relation k) a b }
{
    (leads(t, k, a, b) & (b == a)) | (joined(t, k, k, a, b) & !leads(t, k, a, b))
}

// "Total on S" adds edges with an end outside S, and a<b in S with no edge either way. (inside: a and b are both in S)
pub fn total(t: Table, k: u32, a: usize, b: usize, inside: bool) -> bool
    ensures { result ≡ on t.entry total (λ _ _. inside) (on t.entry relation k) a b }
{
    strict(t, k, a, b)
        | (leads(t, k, a, b) & !inside)
        | ((a < b) & inside & !leads(t, k, a, b) & !leads(t, k, b, a))
}

// ---- the middle of a broken order

// The least z with a→z→b where there is no a→b, or none.
fn middle(t: Table, k: u32, a: usize, b: usize) -> Option<usize>
    ensures { result ≡ on t.entry middle (on t.entry relation k) a b }
{
    for z in 0..t.n {
        if leads(t, k, a, z) & leads(t, k, z, b) & !leads(t, k, a, b) {
            return Some(z);
        }
    }
    None
}

// In rule 4 the first of sb, dd, cd to offend there decides.
fn deciding(t: Table, a: usize, b: usize) -> u32
    ensures { on t.entry relation result ≡ on t.entry deciding a b }
{
    if strict(t, SB, a, b) {
        return SB;
    }
    if strict(t, DD, a, b) {
        return DD;
    }
    CD
}

// The middle where the rule fails at (a,b): rules 4, 6, 10 and 14 test an order, and all other failures return no middle.
pub fn middle_at(rule: u32, t: Table, a: usize, b: usize) -> Option<usize>
    ensures { result ≡ on t.entry middle_at rule a b }
{
    match rule {
        4 => middle(t, deciding(t, a, b), a, b),
        6 => middle(t, MUTEX_SC, a, b),
        10 => middle(t, SC, a, b),
        14 => middle(t, PLACE_MO, a, b),
        _ => None,
    }
}
