// The check of a file's records, one function for each kind.
#![tactic(auto, unfolding(crate::specs::Files::head_check, crate::specs::Files::edition_check, crate::specs::Files::limits_check, crate::specs::Files::header_check, crate::specs::Files::place_check, crate::specs::Files::places_check, crate::specs::Files::fields_ok, crate::specs::Files::action_of, crate::specs::Files::action_check, crate::specs::Files::actions_check, crate::specs::Files::row_check, crate::specs::Files::start_check, crate::specs::Files::starts_check, crate::specs::Files::relation_check, crate::specs::Files::relations_check, crate::specs::Files::end_check, crate::specs::Files::records_check))]

ghost use Rattle.std.specs.Prelude.{◌≡◌, ◌+◌, ◌≤◌, ◌<◌, length};
ghost use Rattle.model.specs.Limits.{newest_edition, most_actions, most_places};
ghost use Rattle.drawing.specs.Files.{place_bytes, action_at, row_at, walks, head_check, edition_check, limits_check, header_check, place_check, places_check, fields_ok, action_of, recorded, action_check, actions_check, row_check, start_check, starts_check, relation_check, relations_check, end_check, records_check};

use crate::{kinds, layout, numbers, to_others, walk};
use model::limits::{GIVEN_RELATIONS, MOST_ACTIONS, MOST_PLACES, MOST_THREADS};
use model::refusals::{Reason, Refusal};
use model::{Action, Header};

// The head of the record at `at`: four bytes (1), kind (2), length (3), payload present (1).
fn head(s: &[u8], at: usize, kind: usize, len: usize) -> Result<(), Refusal>
    requires { (at ≤ 65536) × (len ≤ 65536) }
    ensures { result ≡ head_check s.now at kind len }
{
    Reason::EndsEarly.unless(at + 4 <= s.len(), at)?;
    Reason::WrongKind.unless(numbers::half(s, at + 2) == kind, at)?;
    Reason::WrongLength.unless(numbers::half(s, at) == len, at)?;
    Reason::EndsEarly.unless(at + 4 + len <= s.len(), at)
}

// The edition (4).
fn edition(s: &[u8]) -> Result<(), Refusal>
    requires { 12 ≤ length s.now }
    ensures { result ≡ edition_check newest_edition s.now }
{
    Reason::UnknownEdition.unless(kinds::edition_ok(numbers::half(s, 4)), 0)
}

// N, T and P (5).
fn limits(s: &[u8]) -> Result<(), Refusal>
    requires { 12 ≤ length s.now }
    ensures { result ≡ limits_check s.now }
{
    let within = numbers::half(s, 6) <= MOST_ACTIONS
        && numbers::half(s, 8) <= MOST_THREADS
        && numbers::half(s, 10) <= MOST_PLACES;
    Reason::AboveLimit.unless(within, 0)
}

// The first record.
pub fn header(s: &[u8]) -> Result<(), Refusal>
    ensures { result ≡ header_check newest_edition s.now }
{
    head(s, 0, 1, 8)?;
    edition(s)?;
    limits(s)
}

// One place byte (6).
fn place(s: &[u8], i: usize) -> Result<(), Refusal>
    requires { place_bytes + i < length s.now }
    ensures { result ≡ place_check s.now i }
{
    Reason::BadField.unless(kinds::place_byte_ok(s[layout::PLACE_BYTES + i]), 12)
}

fn place_bytes(s: &[u8], p: usize) -> Result<(), Refusal>
    requires { place_bytes + p ≤ length s.now }
    ensures { result ≡ walks (place_check s.now) 0 p }
{
    walk(p, |i| place(s, i))
}

// The record of the places.
fn places(s: &[u8], p: usize) -> Result<(), Refusal>
    requires { p ≤ most_places }
    ensures { result ≡ places_check s.now p }
{
    head(s, 12, 2, p)?;
    place_bytes(s, p)
}

// Whether kind and order of the action record at `at` have numbers, and its zero is zero.
fn fields_ok(s: &[u8], at: usize) -> bool
    requires { at + 20 ≤ length s.now }
    ensures { result ≡ fields_ok s.now at }
{
    kinds::kind_ok(s[at + 4], s[at + 5]) && numbers::half(s, at + 10) == 0
}

// The action in the record at `at`.
pub fn decode(s: &[u8], at: usize) -> Action
    requires { at + 20 ≤ length s.now }
    ensures { result ≡ action_of s.now at }
{
    Action {
        what: kinds::kind_of(s[at + 4], s[at + 5]),
        thread: numbers::short(s, at + 6),
        place: numbers::short(s, at + 8),
        read: numbers::word(s, at + 12),
        written: numbers::word(s, at + 16),
    }
}

// One action record (6).
fn action(s: &[u8], at: usize, t: usize, p: usize) -> Result<(), Refusal>
    requires { at ≤ 65536 }
    ensures { result ≡ action_check s.now t p at }
{
    head(s, at, 3, 16)?;
    let ok = fields_ok(s, at) && kinds::action_ok(decode(s, at), t, p);
    Reason::BadField.unless(ok, at)
}

// The action records.
fn actions(s: &[u8], n: usize, t: usize, p: usize) -> Result<(), Refusal>
    requires { (n ≤ most_actions) × (p ≤ most_places) }
    ensures { result ≡ actions_check s.now n t p }
{
    walk(n, |i| action(s, layout::action(p, i), t, p))
}

// Row a of the relation record at `at` (7).
fn row(s: &[u8], n: usize, at: usize, a: usize) -> Result<(), Refusal>
    requires { (at ≤ 65536) × (n ≤ most_actions) × (a < n) × (row_at n at n ≤ length s.now) }
    ensures { result ≡ row_check s.now n at a }
{
    let x = numbers::row(s, n, layout::row(n, at, a));
    Reason::BadColumn.unless(x.minus(x.before(n)).is_empty(), at)
}

fn rows(s: &[u8], n: usize, at: usize) -> Result<(), Refusal>
    requires { (at ≤ 65536) × (n ≤ most_actions) × (row_at n at n ≤ length s.now) }
    ensures { result ≡ walks (row_check s.now n at) 0 n }
{
    walk(n, |a| row(s, n, at, a))
}

// Action i's thread.
fn thread(s: &[u8], p: usize, i: usize) -> u16
    requires { (p ≤ most_places) × (i < most_actions) × (action_at p (i + 1) ≤ length s.now) }
    ensures { result ≡ (recorded s.now p i).thread }
{
    numbers::short(s, layout::action(p, i) + 6)
}

// Row a of the asw record at `at` (11).
fn start(s: &[u8], n: usize, p: usize, at: usize, a: usize) -> Result<(), Refusal>
    requires { (at ≤ 65536) × (n ≤ most_actions) × (p ≤ most_places) × (a < n) × (action_at p n ≤ length s.now) × (row_at n at n ≤ length s.now) }
    ensures { result ≡ start_check s.now n p at a }
{
    let row = numbers::row(s, n, layout::row(n, at, a));
    Reason::OwnThread.unless(to_others(n, row, a, |i| thread(s, p, i)), at)
}

// The record of relation k, where that is asw.
fn starts(s: &[u8], n: usize, p: usize, at: usize, k: usize) -> Result<(), Refusal>
    requires { (at ≤ 65536) × (n ≤ most_actions) × (p ≤ most_places) × (action_at p n ≤ length s.now) × (row_at n at n ≤ length s.now) }
    ensures { result ≡ starts_check s.now n p at k }
{
    if k != model::ASW as usize {
        return Ok(());
    }
    walk(n, |a| start(s, n, p, at, a))
}

// The record of relation k: its number (6), its rows (7), and asw's edges (11).
fn relation(s: &[u8], n: usize, p: usize, at: usize, k: usize) -> Result<(), Refusal>
    requires { (at ≤ 65536) × (n ≤ most_actions) × (p ≤ most_places) × (action_at p n ≤ at) }
    ensures { result ≡ relation_check s.now n p at k }
{
    head(s, at, 4, 2 + layout::rows_length(n, n))?;
    Reason::BadField.unless(numbers::half(s, at + 4) == k, at)?;
    rows(s, n, at)?;
    starts(s, n, p, at, k)
}

// The seven relation records.
fn relations(s: &[u8], n: usize, p: usize) -> Result<(), Refusal>
    requires { (n ≤ most_actions) × (p ≤ most_places) }
    ensures { result ≡ relations_check s.now n p }
{
    walk(
        GIVEN_RELATIONS,
        |k| relation(s, n, p, layout::relation(n, p, k), k),
    )
}

// The end record, and nothing after it (8).
fn end(s: &[u8], at: usize) -> Result<(), Refusal>
    requires { at ≤ 65536 }
    ensures { result ≡ end_check s.now at }
{
    head(s, at, 5, 0)?;
    Reason::BytesAfterEnd.unless(s.len() <= at + 4, at + 4)
}

// The records after the first.
pub fn later_records(s: &[u8], head: Header) -> Result<(), Refusal>
    requires { (head.n ≤ most_actions) × (head.p ≤ most_places) }
    ensures { result ≡ records_check s.now head.n head.t head.p }
{
    let n = head.n;
    let p = head.p;
    places(s, p)?;
    actions(s, n, head.t, p)?;
    relations(s, n, p)?;
    end(s, layout::end(n, p))
}
