// The search for the missing half: the choices of a plan walked one at a time over a desk, each candidate judged where it lies, within a budget.
#![tactic(auto)]

ghost use Rattle.std.specs.Prelude.{cond, ◌&&◌, [], ◌∷◌, ◌≡◌, ℕ, ◌+◌, ◌<◌, ◌≤◌, leb, ltb, length};
ghost use Rattle.rows.specs.Sets.{single, count};
ghost use Rattle.rows.specs.Numbers.{size, has, held};
ghost use Rattle.model.specs.Limits.{store_length, desk_length};
ghost use Rattle.model.specs.Model.{filled};
ghost use Rattle.model.specs.Judge.{is_passed};
ghost use Rattle.model.specs.Laws.Placing.{Placing};
ghost use Rattle.choices.specs.Lists.{adds, books};
ghost use Rattle.choices.specs.Walks.{ordering, choices, each_source, sourced, each_next, arranged, spread, passes};
ghost use Rattle.search.specs.Finds.{blank, replaced, WalksDesk, Ready, Cleared, Finds};

use choices::Outcome;
use model::{MO, RF, SC, Verdict};
use rows::Row;

// What stops a walk: a candidate passed, with the budget left, or the budget is spent. A walk whose candidates all failed goes on with the budget left.
#[derive(Clone, Copy, PartialEq, Eq)]
pub enum Stop {
    Hit { left: u64 },
    Spent,
}

// Whether a verdict is passed.
fn is_passed(verdict: Verdict) -> bool
    ensures { result ≡ is_passed verdict }
{
    verdict == Verdict::Passed
}

// Judges the candidate on the desk, whose relations 7 to 17 go to the store.
fn judge_desk(desk: &mut [u64], store: &mut [u64], edition: usize, n: usize) -> bool
    requires { (n ≤ size) × (length desk.old ≡ desk_length) × (store_length ≤ length store.old) × Placing n (blank (held desk.old)) }
    ensures value { result ≡ passes edition n (blank (held desk.old)) }
    ensures by_index { (j : ℕ) → held store.new j ≡ cond (leb 7 j && ltb j 18) (filled n (blank (held desk.old)) j) (held store.old j) }
    ensures desk_unchanged { blank (held desk.new) ≡ blank (held desk.old) }
{
    let mut notes = [1u64; desk::NOTES_LENGTH];
    desk::take_notes(&mut notes, desk, n);
    relations::derive(store, desk, &notes, n);
    is_passed(rules::scan(desk, &notes, edition, n))
}

// Relations rf, sc and mo of the desk into the store.
fn lay_half(store: &mut [u64], desk: &[u64])
    requires { (store_length ≤ length store.old) × (length desk.now ≡ desk_length) }
    ensures { (j : ℕ) → held store.new j ≡ cond (leb 4 j && ltb j 7) (held desk.now j) (held store.old j) }
{
    rows::copy(desk, RF, store, RF);
    rows::copy(desk, SC, store, SC);
    rows::copy(desk, MO, store, MO);
}

// One candidate, judged within the budget; if it is passed its relations are left in the store.
fn leaf(
    desk: &mut [u64],
    store: &mut [u64],
    edition: usize,
    n: usize,
    budget: u64,
) -> Result<u64, Stop>
    requires { (n ≤ size) × (length desk.old ≡ desk_length) × (store_length ≤ length store.old) × Placing n (blank (held desk.old)) }
    ensures { WalksDesk edition n (λ σ. σ ∷ []) budget desk.old store.old desk.new store.new result }
{
    if budget == 0 {
        return Err(Stop::Spent);
    }
    let left = budget - 1;
    if judge_desk(desk, store, edition, n) {
        lay_half(store, desk);
        return Err(Stop::Hit { left });
    }
    Ok(left)
}

// Relation k gets the edges from a to each of s; the answer is what row a was.
fn give(desk: &mut [u64], k: u32, a: usize, s: Row) -> Row
    requires { (k < 7) × (a < size) × (length desk.old ≡ desk_length) }
    ensures result_value { has result ≡ blank (held desk.old) k a }
    ensures desk_after { blank (held desk.new) ≡ adds k a (has s) (blank (held desk.old)) }
{
    let row = rows::load(desk, k, a);
    rows::put(desk, k, a, row.or(s));
    row
}

// Row a of relation k becomes what it was.
fn take_back(desk: &mut [u64], k: u32, a: usize, row: Row)
    requires { (k < 7) × (a < size) × (length desk.old ≡ desk_length) }
    ensures { blank (held desk.new) ≡ replaced k a (has row) (blank (held desk.old)) }
{
    rows::put(desk, k, a, row);
}

// The relation that choice i orders: mo for a place, sc for the last.
fn ordering(n: usize, p: usize, i: usize) -> u32
    requires { n + p < size }
    ensures { (result ≡ ordering n p i) × (result < 7) }
{
    if i < n + p { MO } else { SC }
}

// How many of the last `ahead` choices are left once those in front that are orders of no action are passed over, so that these take no stack.
fn pass_over(plan: &[u64], n: usize, p: usize, ahead: usize) -> usize
    requires { (n + p < size) × (ahead ≤ n + p + 1) }
    ensures { (result ≤ ahead) × (spread n p (held plan.now 0) result ≡ spread n p (held plan.now 0) ahead) }
{
    let mut left = ahead;
    while 0 < left && left <= p + 1 && rows::load(plan, 0, n + p - (left - 1)).is_empty() {
        left -= 1;
    }
    left
}

// Walks the last `ahead` choices, orders of no action in front passed over: with none left the candidate is judged, else each option of the first of them is taken, with one choice fewer left.
#[cycle(walks)]
fn walk(
    plan: &[u64],
    desk: &mut [u64],
    store: &mut [u64],
    edition: usize,
    n: usize,
    p: usize,
    ahead: usize,
    budget: u64,
) -> Result<u64, Stop>
    requires { Ready n p desk.old store.old × (ahead ≤ n + p + 1) }
    ensures { WalksDesk edition n (spread n p (held plan.now 0) ahead) budget desk.old store.old desk.new store.new result }
{
    let left = pass_over(plan, n, p, ahead);
    if left == 0 {
        return leaf(desk, store, edition, n, budget);
    }
    let rest = left - 1;
    let i = n + p - rest;
    let s = rows::load(plan, 0, i);
    if i < n {
        return source(plan, desk, store, edition, n, p, rest, i, s, budget);
    }
    let k = ordering(n, p, i);
    arrange(plan, desk, store, edition, n, p, rest, k, s, budget)
}

// The sources of read b: none, then each of s.
#[cycle(walks)]
fn source(
    plan: &[u64],
    desk: &mut [u64],
    store: &mut [u64],
    edition: usize,
    n: usize,
    p: usize,
    rest: usize,
    b: usize,
    s: Row,
    budget: u64,
) -> Result<u64, Stop>
    requires { Ready n p desk.old store.old × (rest ≤ n + p) × (b < size) }
    ensures { WalksDesk edition n (sourced b (has s) (spread n p (held plan.now 0) rest)) budget desk.old store.old desk.new store.new result }
{
    let left = walk(plan, desk, store, edition, n, p, rest, budget)?;
    source_each(plan, desk, store, edition, n, p, rest, b, s, left)
}

// Write w as the source of read b: the edge is given, and taken back after the walk.
#[cycle(walks)]
fn try_source(
    plan: &[u64],
    desk: &mut [u64],
    store: &mut [u64],
    edition: usize,
    n: usize,
    p: usize,
    rest: usize,
    b: usize,
    w: usize,
    budget: u64,
) -> Result<u64, Stop>
    requires { Ready n p desk.old store.old × (rest ≤ n + p) × (b < size) × (w < size) }
    ensures { WalksDesk edition n (λ σ. spread n p (held plan.now 0) rest (adds 4 w (single b) σ)) budget desk.old store.old desk.new store.new result }
{
    let row = give(desk, RF, w, Row::only(b));
    let walked = walk(plan, desk, store, edition, n, p, rest, budget);
    take_back(desk, RF, w, row);
    walked
}

// Each of s as the source of read b.
#[cycle(walks)]
fn source_each(
    plan: &[u64],
    desk: &mut [u64],
    store: &mut [u64],
    edition: usize,
    n: usize,
    p: usize,
    rest: usize,
    b: usize,
    s: Row,
    budget: u64,
) -> Result<u64, Stop>
    requires { Ready n p desk.old store.old × (rest ≤ n + p) × (b < size) }
    ensures { WalksDesk edition n (each_source b (has s) (spread n p (held plan.now 0) rest)) budget desk.old store.old desk.new store.new result }
{
    let mut left = budget;
    for w in s {
        left = try_source(plan, desk, store, edition, n, p, rest, b, w, left)?;
    }
    Ok(left)
}

// The orders of s in relation k.
#[cycle(walks)]
fn arrange(
    plan: &[u64],
    desk: &mut [u64],
    store: &mut [u64],
    edition: usize,
    n: usize,
    p: usize,
    rest: usize,
    k: u32,
    s: Row,
    budget: u64,
) -> Result<u64, Stop>
    requires { Ready n p desk.old store.old × (rest ≤ n + p) × (k < 7) }
    ensures { WalksDesk edition n (arranged (count size (has s)) k (has s) (spread n p (held plan.now 0) rest)) budget desk.old store.old desk.new store.new result }
{
    if s.is_empty() {
        return walk(plan, desk, store, edition, n, p, rest, budget);
    }
    arrange_each(plan, desk, store, edition, n, p, rest, k, s, budget)
}

// Action w as the next one, before the others in each of their orders: its edges are given, and taken back after the walk.
#[cycle(walks)]
fn try_next(
    plan: &[u64],
    desk: &mut [u64],
    store: &mut [u64],
    edition: usize,
    n: usize,
    p: usize,
    rest: usize,
    k: u32,
    w: usize,
    others: Row,
    budget: u64,
) -> Result<u64, Stop>
    requires { Ready n p desk.old store.old × (rest ≤ n + p) × (k < 7) × (w < size) }
    ensures { WalksDesk edition n (λ σ. arranged (count size (has others)) k (has others) (spread n p (held plan.now 0) rest) (adds k w (has others) σ)) budget desk.old store.old desk.new store.new result }
{
    let row = give(desk, k, w, others);
    let walked = arrange(plan, desk, store, edition, n, p, rest, k, others, budget);
    take_back(desk, k, w, row);
    walked
}

// Each of s as the next one: before the others, which come after it in each of their orders.
#[cycle(walks)]
fn arrange_each(
    plan: &[u64],
    desk: &mut [u64],
    store: &mut [u64],
    edition: usize,
    n: usize,
    p: usize,
    rest: usize,
    k: u32,
    s: Row,
    budget: u64,
) -> Result<u64, Stop>
    requires { Ready n p desk.old store.old × (rest ≤ n + p) × (k < 7) }
    ensures { WalksDesk edition n (each_next k (has s) (spread n p (held plan.now 0) rest)) budget desk.old store.old desk.new store.new result }
{
    let mut left = budget;
    for w in s {
        let others = s.without(w);
        left = try_next(plan, desk, store, edition, n, p, rest, k, w, others, left)?;
    }
    Ok(left)
}

// Relations 7 to 17 of the store become empty.
fn clear_derived(store: &mut [u64])
    requires { store_length ≤ length store.old }
    ensures { Cleared (held store.old) (held store.new) }
{
    let empty = [0u64; rows::AREA];
    for k in 7..18 {
        rows::copy(&empty, 0, store, k);
    }
}

// The first candidate of a plan that is passed, within the budget, and its relations in the store; the desk has the book to which the options are added.
pub fn search(
    plan: &[u64],
    desk: &mut [u64],
    store: &mut [u64],
    edition: usize,
    n: usize,
    p: usize,
    budget: u64,
) -> Outcome
    requires { Ready n p desk.old store.old }
    ensures { Finds edition n (books (choices n p (held plan.now 0) (n + p + 1)) (blank (held desk.old))) budget (held store.old) (held store.new) result }
{
    match walk(plan, desk, store, edition, n, p, n + p + 1, budget) {
        Err(Stop::Hit { left }) => Outcome::Found {
            judged: budget - left,
        },
        Ok(left) => {
            clear_derived(store);
            Outcome::None {
                judged: budget - left,
            }
        }
        Err(Stop::Spent) => {
            clear_derived(store);
            Outcome::Undecided { judged: budget }
        }
    }
}
