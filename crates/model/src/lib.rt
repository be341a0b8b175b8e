// What a drawing holds, and what the judge answers of it.
#![tactic(auto)]

pub mod kinds;
pub mod limits;
pub mod refusals;

// Memory orders, 1 to 6 in the file.
#[derive(Clone, Copy)]
pub enum MemoryOrder {
    Relaxed,
    Consume,
    Acquire,
    Release,
    AcqRel,
    SeqCst,
}

// Action kinds, 1 to 8 in the file; the atomic ones and the fence carry their memory order.
#[derive(Clone, Copy)]
pub enum ActionKind {
    Lock,
    Unlock,
    AtomicLoad(MemoryOrder),
    AtomicStore(MemoryOrder),
    ReadModifyWrite(MemoryOrder),
    Load,
    Store,
    Fence(MemoryOrder),
}

// One action: what it does, in which thread, at which place, with the value that it reads and the value that it writes.
#[derive(Clone, Copy)]
pub struct Action {
    pub what: ActionKind,
    pub thread: u16,
    pub place: u16,
    pub read: u32,
    pub written: u32,
}

// What a candidate begins with: the edition that it is judged by, and its N, T and P.
#[derive(Clone, Copy, PartialEq, Eq)]
pub struct Header {
    pub edition: usize,
    pub n: usize,
    pub t: usize,
    pub p: usize,
}

// Passed, or the lowest rule broken, its least offending pair, and the middle there: the action z with a→z→b in the relation tested where that has no a→b, if there is one.
#[derive(Clone, Copy, PartialEq, Eq)]
pub enum Verdict {
    Passed,
    Broken {
        rule: u32,
        a: usize,
        b: usize,
        middle: Option<usize>,
    },
}

// The order's part of the answer: a serial order was given, or refused since none is due.
#[derive(Clone, Copy, PartialEq, Eq)]
pub enum OrderPart {
    Given,
    Refused,
}

// The answer to a candidate: verdict, counts, and the order's part.
#[derive(Clone, Copy, PartialEq, Eq)]
pub struct Judged {
    pub verdict: Verdict,
    pub indeterminate: u32,
    pub unsequenced: u32,
    pub races: u32,
    pub order: OrderPart,
}

// The paper's numbers of the relations, part by part of the store and of the book: 0 to 6 as given, then those worked out.
pub const SB: u32 = 0;

pub const ASW: u32 = 1;

pub const DD: u32 = 2;

pub const CD: u32 = 3;

pub const RF: u32 = 4;

pub const SC: u32 = 5;

pub const MO: u32 = 6;

pub const RS: u32 = 7;

pub const HRS: u32 = 8;

pub const SW: u32 = 9;

pub const CAD: u32 = 10;

pub const DOB: u32 = 11;

pub const ITHB: u32 = 12;

pub const HB: u32 = 13;

pub const VSE: u32 = 14;

pub const VSSE: u32 = 15;

pub const DATA_RACES: u32 = 16;

pub const UNSEQUENCED_RACES: u32 = 17;

// The parts of the book after them: the words, same place, same thread, value written = value read.
pub const WORDS: u32 = 18;

pub const PLACE: u32 = 19;

pub const THREAD: u32 = 20;

pub const VALUE: u32 = 21;

// The rows of the words: word w has row w.
pub const READ: usize = 0;

pub const WRITE: usize = 1;

pub const ATOMIC: usize = 2;

pub const PLAIN: usize = 3;

pub const FENCE: usize = 4;

pub const LOCK: usize = 5;

pub const UNLOCK: usize = 6;

pub const RMW: usize = 7;

pub const SEQ_CST: usize = 8;

pub const SC_ACTION: usize = 9;

pub const ACQUIRE: usize = 10;

pub const RELEASE: usize = 11;

pub const CONSUME: usize = 12;

pub const AT_MUTEX: usize = 13;

pub const AT_PLAIN: usize = 14;

pub const AT_ATOMIC: usize = 15;

pub const ATOMIC_LOAD: usize = 16;

pub const ATOMIC_STORE: usize = 17;

pub const LOAD_ORDER: usize = 18;

pub const STORE_ORDER: usize = 19;
