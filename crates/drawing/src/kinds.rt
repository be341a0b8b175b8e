// The file's numbers of action kinds and memory orders, and the rules that an edition, a place's byte and the fields of an action keep.
#![tactic(auto, unfolding(crate::specs::Files::order_of, crate::specs::Files::kind_of, crate::specs::Files::kind_ok, model::specs::Candidates::action_ok))]

ghost use Rattle.std.specs.Prelude.{◌≡◌};
ghost use Rattle.model.specs.Limits.{newest_edition};
ghost use Rattle.model.specs.Candidates.{edition_ok, place_ok, values_ok, action_ok, place_byte_ok};
ghost use Rattle.drawing.specs.Files.{order_of, kind_of, kind_ok};

use model::limits::NEWEST_EDITION;
use model::{Action, ActionKind, MemoryOrder};

// The order with a number; numbers of no order give the last.
pub fn order_of(o: u8) -> MemoryOrder
    ensures { result ≡ order_of o }
{
    match o {
        1 => MemoryOrder::Relaxed,
        2 => MemoryOrder::Consume,
        3 => MemoryOrder::Acquire,
        4 => MemoryOrder::Release,
        5 => MemoryOrder::AcqRel,
        _ => MemoryOrder::SeqCst,
    }
}

// The kind with a number and an order's number; numbers of no kind give the last.
pub fn kind_of(k: u8, o: u8) -> ActionKind
    ensures { result ≡ kind_of k o }
{
    let m = order_of(o);
    match k {
        1 => ActionKind::Lock,
        2 => ActionKind::Unlock,
        3 => ActionKind::AtomicLoad(m),
        4 => ActionKind::AtomicStore(m),
        5 => ActionKind::ReadModifyWrite(m),
        6 => ActionKind::Load,
        7 => ActionKind::Store,
        _ => ActionKind::Fence(m),
    }
}

// Whether k and o are the numbers of a kind and of the order that it carries.
pub fn kind_ok(k: u8, o: u8) -> bool
    ensures { result ≡ kind_ok k o }
{
    let found = kind_of(k, o);
    found.number() == k && found.order() == o
}

// A fence has place 65535; any other place is below p.
pub fn place_ok(x: Action, p: usize) -> bool
    ensures { result ≡ place_ok p x }
{
    if x.what.is_fence() {
        x.place == 65535
    } else {
        (x.place as usize) < p
    }
}

// A value that the kind doesn't have is 0.
pub fn values_ok(x: Action) -> bool
    ensures { result ≡ values_ok x }
{
    (x.what.reads() || x.read == 0) && (x.what.writes() || x.written == 0)
}

// Whether the fields of an action keep the rules.
pub fn action_ok(x: Action, t: usize, p: usize) -> bool
    ensures { result ≡ action_ok t p x }
{
    (x.thread as usize) < t && place_ok(x, p) && values_ok(x)
}

// Whether an edition is one of 1 to the newest.
pub fn edition_ok(edition: usize) -> bool
    ensures { result ≡ edition_ok newest_edition edition }
{
    (1..=NEWEST_EDITION).contains(&edition)
}

// Whether a place's byte is 0, 1 or 2.
pub fn place_byte_ok(b: u8) -> bool
    ensures { result ≡ place_byte_ok b }
{
    b < 3
}
