// What a search for the missing half of a drawing answers.
#![tactic(auto)]

// The first candidate that is passed was found, none in the list is passed, or the budget did not cover the list; each with the number of candidates judged.
#[derive(Clone, Copy, PartialEq, Eq)]
pub enum Outcome {
    Found { judged: u64 },
    None { judged: u64 },
    Undecided { judged: u64 },
}
