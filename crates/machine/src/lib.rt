// The x86-TSO store-buffer machine: made, stepped one step a call, and drawn as a candidate for the judge.
#![tactic(auto)]

ghost use Rattle.std.specs.Prelude.{ℕ, ◌≡◌, ◌<◌, ◌≤◌, length, get_or};
ghost use Rattle.rows.specs.Numbers.{has};
ghost use Rattle.model.specs.Actions.{no_action};
ghost use Rattle.model.specs.Limits.{most_actions, most_places};
ghost use Rattle.machine.specs.Machine.{most_traced, Reached};
ghost use Rattle.machine.specs.Fields.{state_in};

use model::limits::{MOST_ACTIONS, MOST_PLACES};
use model::{Action, ActionKind, Header};
use rows::Row;

pub mod candidates;
mod kinds;
mod queues;
mod refusals;
pub mod steps;

// Actions of a trace at most.
pub const MOST_TRACED: usize = 64;

// A machine: n actions of T threads at P places; where each read from, what was in memory at its place before it, and which of them wait; who wrote what memory holds at each place.
#[derive(Clone, Copy)]
pub struct Machine {
    acts: [Action; MOST_ACTIONS],
    source: [usize; MOST_TRACED],
    memory: [usize; MOST_PLACES],
    before: [Row; MOST_TRACED],
    waiting: Row,
    t: usize,
    p: usize,
    n: usize,
    // Code.antt, Fit: the arrays hold what the state speaks of
    pub ghost rows: { length before ≡ most_traced },
    pub ghost sources: { length source ≡ most_traced },
    pub ghost actions: { length acts ≡ most_actions },
    pub ghost cells: { length memory ≡ most_places },
    pub ghost few: { n ≤ most_traced },
    pub ghost narrow: { p ≤ most_places },
    pub ghost placed: { (a : ℕ) → a < n → (get_or acts a no_action).place < most_places },
    // some trace leads to its state
    pub ghost reached: { ∥ Reached (state_in acts source memory before (has waiting) t p n) ∥₁ },
}

// An action, with its kind and order, thread, place and value written; or the drain of a thread's oldest store.
#[derive(Clone, Copy)]
pub enum Step {
    Does {
        what: ActionKind,
        thread: usize,
        place: usize,
        written: usize,
    },
    Drains {
        thread: usize,
    },
}

// The candidate of a machine but for its relations: its N actions and P place bytes stand in front.
#[derive(Clone, Copy)]
pub struct Listed {
    pub acts: [Action; MOST_ACTIONS],
    pub places: [u8; MOST_PLACES],
    pub head: Header,
}
