// The finder's door: a drawing without rf, sc and mo, its actions a lent list, and the first candidate that completes it.
#![tactic(auto, unfolding(crate::specs::Finding::few_check, crate::specs::Finding::empty_check, crate::specs::Finding::half_check, crate::specs::Finding::counted_find_check, crate::specs::Finding::plan_row))]

ghost use Rattle.std.specs.Prelude.{List, ◌≡◌, ℕ, ◌+◌, ◌*◌, ◌<◌, ◌≤◌, length};
ghost use Rattle.rows.specs.Numbers.{size, area, has, held};
ghost use Rattle.model.specs.declared.Action.{Action};
ghost use Rattle.model.specs.Limits.{store_length};
ghost use Rattle.model.specs.Candidates.{Candidate};
ghost use Rattle.model.specs.Words.{book_from};
ghost use Rattle.model.specs.Refusals.{Passed};
ghost use Rattle.words.specs.Sheet.{Sheet, Sheeted};
ghost use Rattle.lists.specs.Lists.{Stands, list_candidate};
ghost use Rattle.choices.specs.Lists.{books};
ghost use Rattle.choices.specs.Walks.{choices, plan_of};
ghost use Rattle.search.specs.Finds.{Finds};
ghost use Rattle.finder.specs.Finding.{few_check, empty_check, half_check, counted_find_check, Searched, plan_row, Find};

use choices::Outcome;
use drawing::kinds;
use lists::Gathered;
use model::limits::{DESK_LENGTH, STORE_LENGTH};
use model::refusals::{Reason, Refusal};
use model::{AT_ATOMIC, Action, Header, PLACE, READ, RF, SC_ACTION, WORDS, WRITE};
use rows::Row;

// N is at most this.
const MOST_SEARCHED: usize = 8;

// Numbers of the store before rf, and those of rf, sc and mo.
const HALF_FROM: usize = rows::AREA * (RF as usize);

const HALF_LENGTH: usize = rows::AREA * 3;

// 9, 4 and 5, of a store of this length.
fn few(edition: usize, n: usize, store: usize) -> Result<(), Refusal>
    ensures { result ≡ few_check edition n store }
{
    Reason::ShortBuffer.unless(STORE_LENGTH <= store, 0)?;
    Reason::UnknownEdition.unless(kinds::edition_ok(edition), 0)?;
    Reason::AboveLimit.unless(n <= MOST_SEARCHED, 0)
}

// One number of rf, sc and mo (12).
fn empty(store: &[u64], i: usize) -> Result<(), Refusal>
    requires { area * 4 + i < length store.now }
    ensures { result ≡ empty_check store.now i }
{
    Reason::NotEmpty.unless(store[HALF_FROM + i] == 0, 0)
}

// Relations rf, sc and mo (12).
fn half(store: &[u64]) -> Result<(), Refusal>
    requires { store_length ≤ length store.now }
    ensures { result ≡ half_check store.now }
{
    drawing::walk(HALF_LENGTH, |i| empty(store, i))
}

// The whole check of what was gathered of a list.
fn check(g: Gathered, places: &[u8], store: &[u64], head: Header) -> Result<(), Refusal>
    ensures { result ≡ counted_find_check g.list g.count places.now head.edition head.n head.t head.p store.now }
{
    few(head.edition, head.n, store.len())?;
    lists::checks::check(g, places, store, head)?;
    half(store)
}

// Row i of the plan: of a read the writes of its place; of an atomic place its writes; the SC actions.
fn plan_row(desk: &[u64], at: &[u64], n: usize, p: usize, i: usize) -> Row
    requires { n + p < size }
    ensures { has result ≡ plan_row n p (held desk.now) (held at.now 0) i }
{
    let writes = rows::load(desk, WORDS, WRITE);
    if i < n {
        let reads = rows::load(desk, WORDS, READ).contains(i);
        return writes.and(rows::load(desk, PLACE, i)).only_if(reads);
    }
    if i < n + p {
        let movable = writes.and(rows::load(desk, WORDS, AT_ATOMIC));
        return rows::load(at, 0, i - n).and(movable);
    }
    rows::load(desk, WORDS, SC_ACTION)
}

// The plan: a row for each of the n + p + 1 choices.
fn lay_plan(plan: &mut [u64], desk: &[u64], at: &[u64], n: usize, p: usize)
    requires { (n + p < size) × (length plan.old ≡ area) }
    ensures { (i : ℕ) → i < n + p + 1 → held plan.new 0 i ≡ plan_row n p (held desk.now) (held at.now 0) i }
{
    for i in 0..n + p + 1 {
        rows::put(plan, 0, i, plan_row(desk, at, n, p, i));
    }
}

// Searches the candidates of a sheet's actions, with relations 0 to 3 in the store.
fn search_sheet(
    sheet: &[u64; words::SHEET_LENGTH],
    store: &mut [u64],
    edition: usize,
    n: usize,
    p: usize,
    budget: u64,
) -> Outcome
    requires { (n + p < size) × (store_length ≤ length store.old) × Sheeted n sheet.now }
    ensures { (X : Candidate) → X.n ≡ n → X.p ≡ p → Sheet n X.acts X.places sheet.now → Finds edition n (books (choices n p (plan_of X) (n + p + 1)) (book_from n X.acts X.places (held store.old))) budget (held store.old) (held store.new) result }
{
    let mut desk = [1u64; DESK_LENGTH];
    words::lay(&mut desk, store, sheet, n);
    let mut at = [0u64; rows::AREA];
    words::lay_at(&mut at, sheet, n);
    let mut plan = [0u64; rows::AREA];
    lay_plan(&mut plan, &desk, &at, n, p);
    search::search(&plan, &mut desk, store, edition, n, p, budget)
}

// Searches the candidates of a list that passed the check.
fn search_good(g: Gathered, places: &[u8], head: Header, store: &mut [u64], budget: u64) -> Outcome
    requires { counted_find_check g.list g.count places.now head.edition head.n head.t head.p store.old ≡ Passed }
    ensures { (acts : List Action) → Stands acts g → Searched (list_candidate acts places.now head.edition head.n head.t head.p store.old) budget store.old store.new result }
{
    let sheet = second::sheet_of(g.list, places, head.n);
    search_sheet(
        &sheet,
        &mut store[..STORE_LENGTH],
        head.edition,
        head.n,
        head.p,
        budget,
    )
}

// Finds rf, sc and mo for a lent list of actions at places of these kinds, with sb, asw, dd and cd in the store: the first candidate that is passed, within the budget.
pub fn find_list(
    acts: &[Action],
    places: &[u8],
    head: Header,
    store: &mut [u64],
    budget: u64,
) -> Result<Outcome, Refusal>
    ensures { Find acts.now places.now head.edition head.n head.t head.p store.old budget result store.new }
{
    let g = lists::gather(acts);
    check(g, places, store, head)?;
    Ok(search_good(g, places, head, store, budget))
}
