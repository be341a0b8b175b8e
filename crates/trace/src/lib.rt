// The text of a trace, of any bytes: checked, and read a line a step.
#![tactic(auto)]

use machine::Step;

pub mod checks;
pub mod lines;

// Bytes of the longest trace, and how many bytes of any text decide the answer to it.
pub const LONGEST_TRACE: usize = 1048576;

pub const TRACE_ROOM: usize = LONGEST_TRACE + 1;

// The step that a line is read as, and where the line ends: where it begins if it isn't the line of this step.
#[derive(Clone, Copy)]
pub struct Line {
    pub step: Step,
    pub next: usize,
}

// What the first line is read as, and where it ends: 0 if it isn't the line of these.
#[derive(Clone, Copy)]
pub struct FirstLine {
    pub t: usize,
    pub p: usize,
    pub next: usize,
}

// What a text that was checked begins with: its threads and places, and where its steps begin.
#[derive(Clone, Copy, PartialEq, Eq)]
pub struct Beginning {
    pub t: usize,
    pub p: usize,
    pub at: usize,
}
