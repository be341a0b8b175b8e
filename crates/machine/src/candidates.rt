// The candidate of a machine: its relations in a lent store, row by row.
ghost use Rattle.std.specs.Prelude.{cond, [], ◌≡◌, ℕ, ◌<◌, ◌≤◌, eqb, ltb, length, get_or};
ghost use Rattle.rows.specs.Sets.{before};
ghost use Rattle.rows.specs.Numbers.{has, held, rel};
ghost use Rattle.model.specs.Limits.{most_actions, given_relations, given_length};
ghost use Rattle.model.specs.Candidates.{given};
ghost use Rattle.machine.specs.Machine.{last_of_zero, first_of_other, rf_of, mo_of, sb_of, candidate};
ghost use Rattle.machine.specs.Code.{of_thread, Starts, state_of, Draws, Lists};

use crate::{Listed, Machine};
use model::limits::{GIVEN_LENGTH, GIVEN_RELATIONS, MOST_ACTIONS, MOST_PLACES, STORE_LENGTH};
use model::refusals::{Reason, Refusal};
use model::{ASW, Action, Header, MO, RF, SB};
use rows::Row;

// The edition of a candidate.
const EDITION: usize = 2;

// The actions below n of the thread.
fn of_thread(acts: [Action; MOST_ACTIONS], thread: u16, n: usize) -> Row
    requires { n ≤ most_actions }
    ensures { has result ≡ before (of_thread acts thread) n }
{
    rows::select(n, |b| acts[b].thread == thread)
}

// Row a of sb.
fn sb_row(m: Machine, a: usize) -> Row
    requires { a < m.n }
    ensures { has result ≡ before (sb_of (state_of m) a) m.n }
{
    of_thread(m.acts, m.acts[a].thread, m.n).after(a)
}

// Whether action b is the first of a thread other than 0.
fn is_first(m: Machine, b: usize) -> bool
    requires { b < m.n }
    ensures { result ≡ first_of_other (state_of m) b }
{
    let thread = m.acts[b].thread;
    thread != 0 && of_thread(m.acts, thread, b).is_empty()
}

// The first actions of the threads other than 0.
fn firsts(m: Machine) -> Row
    ensures { has result ≡ before (first_of_other (state_of m)) m.n }
{
    rows::select(m.n, |b| is_first(m, b))
}

// Whether action a is the last of thread 0, which has these.
fn is_last(m: Machine, zero: Row, a: usize) -> bool
    requires { (a < m.n) × (has zero ≡ before (of_thread m.acts 0) m.n) }
    ensures { result ≡ last_of_zero (state_of m) a }
{
    zero.contains(a) && zero.after(a).is_empty()
}

// Row a of rf.
fn rf_row(m: Machine, a: usize) -> Row
    requires { a < m.n }
    ensures { has result ≡ before (rf_of (state_of m) a) m.n }
{
    rows::select(m.n, |b| m.source[b] == a + 1)
}

// Row a of mo.
fn mo_row(m: Machine, a: usize) -> Row
    ensures { has result ≡ before (mo_of (state_of m) a) m.n }
{
    rows::select(m.n, |b| m.before[b].contains(a))
}

// Row a of relation k; none from n on.
fn row_of(m: Machine, zero: Row, firsts: Row, k: u32, a: usize) -> Row
    requires { (k < given_relations) × Starts m zero firsts }
    ensures { has result ≡ rel (get_or (given (candidate (state_of m))) k []) a }
{
    if m.n <= a {
        return Row::empty();
    }
    if k == SB {
        return sb_row(m, a);
    }
    if k == ASW {
        return firsts.only_if(is_last(m, zero, a));
    }
    if k == RF {
        return rf_row(m, a);
    }
    if k == MO {
        return mo_row(m, a);
    }
    Row::empty()
}

// Relation k.
fn put_relation(m: Machine, zero: Row, firsts: Row, k: u32, store: &mut [u64])
    requires { (k < given_relations) × Starts m zero firsts × (length store.old ≡ given_length) }
    ensures { (j : ℕ) → held store.new j ≡ cond (eqb j k) (rel (get_or (given (candidate (state_of m))) j [])) (held store.old j) }
{
    for a in 0..rows::SIZE {
        rows::put(store, k, a, row_of(m, zero, firsts, k, a));
    }
}

// Relations 0 to 6.
fn put_relations(m: Machine, store: &mut [u64])
    requires { length store.old ≡ given_length }
    ensures { (j : ℕ) → held store.new j ≡ cond (ltb j given_relations) (rel (get_or (given (candidate (state_of m))) j [])) (held store.old j) }
{
    let zero = of_thread(m.acts, 0, m.n);
    let firsts = firsts(m);
    for k in 0..GIVEN_RELATIONS {
        put_relation(m, zero, firsts, k as u32, store);
    }
}

// Lays the relations of a machine's candidate into the front of a store, as the second door takes them.
pub fn draw(m: Machine, store: &mut [u64]) -> Result<(), Refusal>
    ensures { Draws (state_of m) store.old result store.new }
{
    Reason::ShortBuffer.unless(STORE_LENGTH <= store.len(), 0)?;
    put_relations(m, &mut store[0..GIVEN_LENGTH]);
    Ok(())
}

// Its actions and place bytes, edition, N, T and P.
#[tactic(auto, using(crate::specs::Laws::Rows::lists_front))]
pub fn list(m: Machine) -> Listed
    ensures { Lists (state_of m) result }
{
    let acts = m.acts;
    Listed {
        acts,
        places: [2; MOST_PLACES],
        head: Header {
            edition: EDITION,
            n: m.n,
            t: m.t,
            p: m.p,
        },
    }
}
