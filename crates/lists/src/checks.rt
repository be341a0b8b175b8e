// The tests of what is handed in as a list, in the paper's order.
#![tactic(auto, unfolding(crate::specs::Lists::sizes_check, crate::specs::Lists::place_check, crate::specs::Lists::action_check, crate::specs::Lists::number_check, crate::specs::Lists::start_check, crate::specs::Lists::content_check, crate::specs::Lists::counted_check))]

ghost use Rattle.std.specs.Prelude.{◌≡◌, ◌^◌, ◌<◌, ◌≤◌, length};
ghost use Rattle.rows.specs.Numbers.{width};
ghost use Rattle.model.specs.Limits.{most_actions, most_places, given_length};
ghost use Rattle.drawing.specs.Files.{walks};
ghost use Rattle.lists.specs.Lists.{action_at, sizes_check, place_check, action_check, number_limit, number_check, start_check, content_check, counted_check};

use crate::Gathered;
use drawing::{kinds, to_others, walk};
use model::limits::{GIVEN_LENGTH, MOST_ACTIONS, MOST_PLACES, MOST_THREADS, STORE_LENGTH};
use model::refusals::{Reason, Refusal};
use model::{ASW, Action, Header};

// 9, 4, 5 and 3, of c actions, q place bytes, and a store of this length.
fn sizes(c: usize, q: usize, head: Header, store: usize) -> Result<(), Refusal>
    ensures { result ≡ sizes_check c q head.edition head.n head.t head.p store }
{
    let within = head.n <= MOST_ACTIONS && head.t <= MOST_THREADS && head.p <= MOST_PLACES;
    Reason::ShortBuffer.unless(STORE_LENGTH <= store, 0)?;
    Reason::UnknownEdition.unless(kinds::edition_ok(head.edition), 0)?;
    Reason::AboveLimit.unless(within, 0)?;
    Reason::WrongLength.unless(c == head.n && q == head.p, 0)
}

// One place byte (6).
fn place(places: &[u8], i: usize) -> Result<(), Refusal>
    requires { (i < most_places) × (i < length places.now) }
    ensures { result ≡ place_check places.now i }
{
    Reason::BadField.unless(kinds::place_byte_ok(places[i]), MOST_ACTIONS + i)
}

fn place_bytes(places: &[u8], p: usize) -> Result<(), Refusal>
    requires { (p ≤ most_places) × (p ≤ length places.now) }
    ensures { result ≡ walks (place_check places.now) 0 p }
{
    walk(p, |i| place(places, i))
}

// One action (6).
fn action(list: [Action; MOST_ACTIONS], t: usize, p: usize, i: usize) -> Result<(), Refusal>
    requires { i < most_actions }
    ensures { result ≡ action_check list t p i }
{
    Reason::BadField.unless(kinds::action_ok(list[i], t, p), i)
}

fn actions(list: [Action; MOST_ACTIONS], n: usize, t: usize, p: usize) -> Result<(), Refusal>
    requires { n ≤ most_actions }
    ensures { result ≡ walks (action_check list t p) 0 n }
{
    walk(n, |i| action(list, t, p, i))
}

// How many low bits number i of the store may have: the columns below n that it has, and none from row n on.
fn bits(n: usize, i: usize) -> usize
    ensures { (result ≤ width) × (2 ^ result ≡ number_limit n i) }
{
    let first = rows::WIDTH * (i % rows::AREA % rows::WIDE);
    if n <= i % rows::AREA / rows::WIDE {
        return 0;
    }
    if first + rows::WIDTH <= n {
        return rows::WIDTH;
    }
    if n <= first {
        return 0;
    }
    n - first
}

// One number of the store (7).
fn number(store: &[u64], n: usize, i: usize) -> Result<(), Refusal>
    requires { i < length store.now }
    ensures { result ≡ number_check store.now n i }
{
    let b = bits(n, i);
    if b != rows::WIDTH && store[i] >> b != 0 {
        return Err(Refusal {
            reason: Reason::BadColumn,
            at: i,
        });
    }
    Ok(())
}

fn numbers(store: &[u64], n: usize) -> Result<(), Refusal>
    requires { given_length ≤ length store.now }
    ensures { result ≡ walks (number_check store.now n) 0 given_length }
{
    walk(GIVEN_LENGTH, |i| number(store, n, i))
}

// Action i's thread.
fn thread(list: [Action; MOST_ACTIONS], i: usize) -> u16
    requires { i < most_actions }
    ensures { result ≡ (action_at list i).thread }
{
    list[i].thread
}

// Row a of asw (11).
fn start(list: [Action; MOST_ACTIONS], store: &[u64], n: usize, a: usize) -> Result<(), Refusal>
    requires { (n ≤ most_actions) × (a < n) }
    ensures { result ≡ start_check list store.now n a }
{
    let ok = to_others(n, rows::load(store, ASW, a), a, |i| thread(list, i));
    Reason::OwnThread.unless(ok, rows::AREA * (ASW as usize) + rows::WIDE * a)
}

fn starts(list: [Action; MOST_ACTIONS], store: &[u64], n: usize) -> Result<(), Refusal>
    requires { n ≤ most_actions }
    ensures { result ≡ walks (start_check list store.now n) 0 n }
{
    walk(n, |a| start(list, store, n, a))
}

// 6, 7 and 11, where 9, 4, 5 and 3 do not hold.
fn content(
    list: [Action; MOST_ACTIONS],
    places: &[u8],
    store: &[u64],
    head: Header,
) -> Result<(), Refusal>
    requires { (head.n ≤ most_actions) × (head.p ≤ most_places) × (head.p ≤ length places.now) × (given_length ≤ length store.now) }
    ensures { result ≡ content_check list places.now store.now head.n head.t head.p }
{
    let n = head.n;
    place_bytes(places, head.p)?;
    actions(list, n, head.t, head.p)?;
    numbers(store, n)?;
    starts(list, store, n)
}

// The whole check of what was gathered of a list.
pub fn check(g: Gathered, places: &[u8], store: &[u64], head: Header) -> Result<(), Refusal>
    ensures { result ≡ counted_check g.list g.count places.now head.edition head.n head.t head.p store.now }
{
    sizes(g.count, places.len(), head, store.len())?;
    content(g.list, places, store, head)
}
