// What malformed input is answered: a refusal, and where.
ghost use Rattle.std.specs.Prelude.{◌≡◌, cond};
ghost use Rattle.model.specs.Refusals.{number, Passed, Refused};

use std::fmt;

// Why an input is refused, in the order of the paper's numbers: 1 to 9 and 11 to 17. Number 10 is no refusal of an input, but the order's part of an answer.
#[derive(Clone, Copy, PartialEq, Eq)]
pub enum Reason {
    EndsEarly,
    WrongKind,
    WrongLength,
    UnknownEdition,
    AboveLimit,
    BadField,
    BadColumn,
    BytesAfterEnd,
    ShortBuffer,
    OwnThread,
    NotEmpty,
    BadLine,
    NotTraced,
    OutOfLimit,
    TooManyActions,
    WrongQueue,
}

// A refusal: its reason, and its position in what was handed in.
#[derive(Clone, Copy, PartialEq, Eq)]
pub struct Refusal {
    pub reason: Reason,
    pub at: usize,
}

impl Reason {
    // The paper's number.
    pub fn number(self) -> u32
        ensures { result ≡ number self }
    {
        match self {
            Reason::EndsEarly => 1,
            Reason::WrongKind => 2,
            Reason::WrongLength => 3,
            Reason::UnknownEdition => 4,
            Reason::AboveLimit => 5,
            Reason::BadField => 6,
            Reason::BadColumn => 7,
            Reason::BytesAfterEnd => 8,
            Reason::ShortBuffer => 9,
            Reason::OwnThread => 11,
            Reason::NotEmpty => 12,
            Reason::BadLine => 13,
            Reason::NotTraced => 14,
            Reason::OutOfLimit => 15,
            Reason::TooManyActions => 16,
            Reason::WrongQueue => 17,
        }
    }

    // Passes where a rule is kept; refuses for this reason, at a position, where it isn't.
    pub fn unless(self, kept: bool, at: usize) -> Result<(), Refusal>
        ensures { result ≡ cond kept Passed (Refused self at) }
    {
        if kept {
            Ok(())
        } else {
            Err(Refusal { reason: self, at })
        }
    }
}

// The paper's line, as `refused 3 12`.
impl fmt::Display for Refusal {
    fn fmt<W: fmt::Write>(&self, f: &mut fmt::Formatter<W>) -> fmt::Result {
        write!(f, "refused {} {}", self.reason.number(), self.at)
    }
}
