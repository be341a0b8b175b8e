// A text drawing of any bytes: checked line by line, and what a good one holds.
#![tactic(auto)]

use model::Header;
use model::limits::{GIVEN_RELATIONS, MOST_ACTIONS, MOST_PLACES};
use rows::Row;

pub mod checks;
pub mod edges;
pub mod parts;

// The digits of the numbers 0 to 127, one after another.
const ALL_DIGITS: usize = 274;

// Bytes of the longest text: the first line, of 7 bytes for each place, of 40 for each action, every edge of every relation, and the end.
pub const LONGEST_TEXT: usize = 20
    + 7 * MOST_PLACES
    + 40 * MOST_ACTIONS
    + GIVEN_RELATIONS * (5 * (MOST_ACTIONS * MOST_ACTIONS) + 2 * (MOST_ACTIONS * ALL_DIGITS))
    + MOST_ACTIONS * MOST_ACTIONS
    + 4;

// How many bytes of any text decide the answer to it.
pub const TEXT_ROOM: usize = LONGEST_TEXT + 1;

// The first line, places and actions that were checked: what the first line says, and where places, actions and edges begin.
#[derive(Clone, Copy, PartialEq, Eq)]
pub struct Beginning {
    pub head: Header,
    pub places: usize,
    pub actions: usize,
    pub edges: usize,
}

// A row that was read, and where it ends.
#[derive(Clone, Copy)]
pub struct RowRead {
    pub row: Row,
    pub next: usize,
}
