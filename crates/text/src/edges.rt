// The edges of a text, row by row.
ghost use Rattle.std.specs.Prelude.{ℕ, ◌≤◌, ◌<◌, cond, ◌&&◌, ◌≡◌, eqb, ltb, length};
ghost use Rattle.rows.specs.Sets.{before};
ghost use Rattle.rows.specs.Numbers.{has, held};
ghost use Rattle.model.specs.Limits.{most_actions, given_relations, given_length};
ghost use Rattle.text.specs.Texts.{edge_step, row_step, row_taken, rows_step, relation_step, edge_taken, along};
ghost use Rattle.text.specs.Parts.{same_thread, bars_of};

use crate::RowRead;
use model::Action;
use model::limits::{GIVEN_RELATIONS, MOST_ACTIONS};
use rows::Row;
use spelling::edges::{after_edge, row_begins};

// The actions below n of a's thread.
fn same_thread(list: [Action; MOST_ACTIONS], n: usize, a: usize) -> Row
    requires { (n ≤ most_actions) × (a < n) }
    ensures { has result ≡ before (same_thread list a) n }
{
    let own = list[a].thread;
    rows::select(n, |b| own == list[b].thread)
}

// What is barred of row a of relation k.
#[tactic(auto, using(crate::specs::Laws::Rows::bars_one, crate::specs::Laws::Rows::bars_none))]
fn barred(list: [Action; MOST_ACTIONS], n: usize, k: usize, a: usize) -> Row
    requires { (n ≤ most_actions) × (a < n) }
    ensures { has result ≡ before (bars_of list k a) n }
{
    if k == model::ASW as usize {
        same_thread(list, n, a)
    } else {
        Row::empty()
    }
}

// The place after the edge from a to b, if it is next and not barred; else `at`.
#[tactic(auto, unfolding(crate::specs::Texts::edge_step, spelling::specs::Spelling::word_end))]
fn edge(s: &[u8], at: usize, k: usize, a: usize, b: usize, bar: Row) -> usize
    ensures { result ≡ edge_step s.now (has bar) k a b at }
{
    if bar.contains(b) {
        at
    } else {
        after_edge(s, at, k, a, b)
    }
}

// The members of row a of relation k, from `at` on.
fn members(s: &[u8], at: usize, n: usize, k: usize, a: usize, bar: Row) -> RowRead
    requires { n ≤ most_actions }
    ensures { (result.next ≡ row_step s.now n (has bar) k a at) × (has result.row ≡ before (row_taken s.now (has bar) k a at) n) }
{
    let mut row = Row::empty();
    let mut next = at;
    for b in 0..n {
        let after = edge(s, next, k, a, b, bar);
        row = row.with_if(b, next < after);
        next = after;
    }
    RowRead { row, next }
}

// The same; no member is looked for where the row doesn't begin.
fn row(s: &[u8], at: usize, n: usize, k: usize, a: usize, bar: Row) -> RowRead
    requires { n ≤ most_actions }
    ensures { (result.next ≡ row_step s.now n (has bar) k a at) × (has result.row ≡ before (row_taken s.now (has bar) k a at) n) }
{
    if row_begins(s, at, k, a) {
        members(s, at, n, k, a, bar)
    } else {
        RowRead {
            row: Row::empty(),
            next: at,
        }
    }
}

// Relation k, from `at` on: its rows below n go to the store, whose other rows stay; the answer is the place after it.
fn relation(
    s: &[u8],
    at: usize,
    n: usize,
    k: usize,
    list: [Action; MOST_ACTIONS],
    store: &mut [u64],
) -> usize
    requires { (n ≤ most_actions) × (k < given_relations) × (given_length ≤ length store.old) }
    ensures value { result ≡ relation_step s.now n (bars_of list) k at }
    ensures by_index { (j a : ℕ) → held store.new j a ≡ cond (eqb j k && ltb a n) (before (row_taken s.now (bars_of list k a) k a (rows_step s.now n (bars_of list) k at a)) n) (held store.old j a) }
{
    let mut next = at;
    for a in 0..n {
        let read = row(s, next, n, k, a, barred(list, n, k, a));
        rows::put(store, k as u32, a, read.row);
        next = read.next;
    }
    next
}

// All edges, from `at` on: their rows below n go to the store, whose other rows stay; the answer is the place after them.
pub fn fill(s: &[u8], at: usize, n: usize, list: [Action; MOST_ACTIONS], store: &mut [u64]) -> usize
    requires { (n ≤ most_actions) × (given_length ≤ length store.old) }
    ensures value { result ≡ along (relation_step s.now n (bars_of list)) at given_relations }
    ensures by_index { (j a : ℕ) → held store.new j a ≡ cond (ltb j given_relations && ltb a n) (before (edge_taken s.now n (bars_of list) at j a) n) (held store.old j a) }
{
    let mut next = at;
    for k in 0..GIVEN_RELATIONS {
        next = relation(s, next, n, k, list, store);
    }
    next
}
