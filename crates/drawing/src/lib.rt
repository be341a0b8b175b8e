// The drawing file: the whole check first, then what a good file holds.
#![tactic(auto)]

ghost use Rattle.std.specs.Prelude.{◌≡◌, cond, ℕ, ◌+◌, ◌≤◌, ◌<◌, eqb, ltb, length};
ghost use Rattle.rows.specs.Numbers.{bit, listed, rel, has, held};
ghost use Rattle.model.specs.Limits.{most_actions, most_places, given_relations, given_length};
ghost use Rattle.model.specs.Actions.{no_action};
ghost use Rattle.model.specs.Candidates.{to_others};
ghost use Rattle.model.specs.declared.Action.{Action};
ghost use Rattle.drawing.specs.Files.{file_length, action_at, action_of, walks, action_no, row_no, rows_of, check_of, read_with};
ghost use Rattle.model.specs.Refusals.{Walk};

use model::limits::{GIVEN_RELATIONS, MOST_ACTIONS, MOST_PLACES, ORDER_LENGTH, STORE_LENGTH};
use model::refusals::{Reason, Refusal};
use model::{Action, ActionKind, Header};
use rows::Row;

mod drawn;
pub mod kinds;
mod layout;
pub mod numbers;
mod records;
pub mod writing;

pub use drawn::Drawing;
pub use layout::PLACE_BYTES;

// Bytes of the longest file; and how many of any file decide the answer to it.
pub const LONGEST_FILE: usize = PLACE_BYTES
    + MOST_PLACES
    + 20 * MOST_ACTIONS
    + (6 + 16 * MOST_ACTIONS) * GIVEN_RELATIONS
    + 4;

pub const FILE_ROOM: usize = LONGEST_FILE + 1;

// The same part of a check for the numbers below n, in their order: the first refusal.
#[tactic(auto, using(crate::proofs::Walks::walk_go, crate::proofs::Walks::walk_stop, crate::proofs::Walks::walk_done))]
pub fn walk<F: Fn(usize) -> Result<(), Refusal>>(n: usize, part: F) -> Result<(), Refusal>
    requires { (i : ℕ) → i < n → F.pre part i }
    ensures { (f : ℕ → Walk) → ((i : ℕ) (r : Walk) → i < n → F.post part i r → r ≡ f i) → result ≡ walks f 0 n }
{
    for i in 0..n {
        part(i)?;
    }
    Ok(())
}

// Whether no action below n that a's row leads to is of action a's thread, where `thread` tells an action's thread.
pub fn to_others<F: Fn(usize) -> u16>(n: usize, row: Row, a: usize, thread: F) -> bool
    requires { (n ≤ most_actions) × (a < n) × ((i : ℕ) → i < n → F.pre thread i) }
    ensures { (f : ℕ → Action) → ((i x : ℕ) → i < n → F.post thread i x → x ≡ (f i).thread) → result ≡ to_others n f (has row) a }
{
    let own = thread(a);
    for b in row.before(n) {
        if thread(b) == own {
            return false;
        }
    }
    true
}

// Checks a file of any bytes, record by record: edition, N, T and P, or a refusal.
#[tactic(auto, unfolding(crate::specs::Files::check_by, crate::specs::Files::header_check, crate::specs::Files::head_check, crate::specs::Files::edition_check, crate::specs::Files::limits_check))]
pub fn check_file(file: &[u8]) -> Result<Header, Refusal>
    ensures { result ≡ check_of file.now }
{
    records::header(file)?;
    let head = Header {
        edition: numbers::half(file, 4),
        n: numbers::half(file, 6),
        t: numbers::half(file, 8),
        p: numbers::half(file, 10),
    };
    records::later_records(file, head)?;
    Ok(head)
}

// The reader's answer to a file, a store of `store` numbers and an order buffer of `order` bytes.
#[tactic(auto, unfolding(crate::specs::Files::read_with))]
pub fn check(file: &[u8], store: usize, order: usize) -> Result<Header, Refusal>
    ensures { result ≡ read_with file.now store order }
{
    Reason::ShortBuffer.unless(STORE_LENGTH <= store && ORDER_LENGTH <= order, 0)?;
    check_file(file)
}

// Action i of a good file.
pub fn action_at(file: &[u8], p: usize, i: usize) -> Action
    requires { (p ≤ most_places) × (i < most_actions) × (action_at p (i + 1) ≤ length file.now) }
    ensures { result ≡ action_of file.now (action_at p i) }
{
    records::decode(file, layout::action(p, i))
}

// No actions yet.
#[tactic(auto, unfolding(rows::specs::Numbers::listed))]
pub fn no_actions() -> [Action; MOST_ACTIONS]
    ensures { result ≡ listed most_actions (λ _. no_action) }
{
    let none = Action {
        what: ActionKind::Lock,
        thread: 0,
        place: 0,
        read: 0,
        written: 0,
    };
    [none; MOST_ACTIONS]
}

// The actions of a good file.
#[tactic(auto, unfolding(crate::specs::Files::action_no))]
pub fn actions(file: &[u8], n: usize, p: usize) -> [Action; MOST_ACTIONS]
    requires { (n ≤ most_actions) × (p ≤ most_places) × (file_length n p ≤ length file.now) }
    ensures { result ≡ listed most_actions (action_no file.now n p) }
{
    let mut list = no_actions();
    for i in 0..n {
        list[i] = action_at(file, p, i);
    }
    list
}

// Bytes of the file of n actions at p places.
pub fn file_length(n: usize, p: usize) -> usize
    requires { (n ≤ most_actions) × (p ≤ most_places) }
    ensures { result ≡ file_length n p }
{
    layout::end(n, p) + 4
}

// Row a of relation k of a good file; rows from n on are zero.
#[tactic(auto, unfolding(crate::specs::Files::row_no))]
fn row_at(file: &[u8], n: usize, p: usize, k: usize, a: usize) -> Row
    requires { (n ≤ most_actions) × (p ≤ most_places) × (k < given_relations) × (file_length n p ≤ length file.now) }
    ensures { has result ≡ bit (row_no file.now n p k a) }
{
    if a < n {
        numbers::row(file, n, layout::row(n, layout::relation(n, p, k), a))
    } else {
        Row::empty()
    }
}

// Relation k of a good file fills numbers 256k to 256k+255 of the store, two to a row, low half first; the other relations stay.
fn fill_relation(file: &[u8], store: &mut [u64], n: usize, p: usize, k: usize)
    requires { (n ≤ most_actions) × (p ≤ most_places) × (k < given_relations) × (file_length n p ≤ length file.now) × (given_length ≤ length store.old) }
    ensures { (j : ℕ) → held store.new j ≡ cond (eqb j k) (rel (rows_of file.now n p k)) (held store.old j) }
{
    for a in 0..rows::SIZE {
        rows::put(store, k as u32, a, row_at(file, n, p, k, a));
    }
}

// Relations 0 to 6 of a good file go to the front of the store; the relations after them stay.
pub fn fill(file: &[u8], store: &mut [u64], n: usize, p: usize)
    requires { (n ≤ most_actions) × (p ≤ most_places) × (file_length n p ≤ length file.now) × (given_length ≤ length store.old) }
    ensures { (j : ℕ) → held store.new j ≡ cond (ltb j given_relations) (rel (rows_of file.now n p j)) (held store.old j) }
{
    for k in 0..GIVEN_RELATIONS {
        fill_relation(file, store, n, p, k);
    }
}
