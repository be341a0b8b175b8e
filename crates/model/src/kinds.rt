// What memory orders and action kinds are to the paper: their numbers, and the words that a kind alone decides.
ghost use Rattle.std.specs.Prelude.{◌≡◌, ◌≤◌, [], ◌∷◌};
ghost use Rattle.model.specs.Actions.{order_number, kind_number, order_in};
ghost use Rattle.model.specs.Candidates.{among};

use crate::{ActionKind, MemoryOrder};

impl MemoryOrder {
    // The paper's number, 1 to 6.
    pub fn number(self) -> u8
        ensures { (result ≡ order_number self) × (result ≤ 6) }
    {
        match self {
            MemoryOrder::Relaxed => 1,
            MemoryOrder::Consume => 2,
            MemoryOrder::Acquire => 3,
            MemoryOrder::Release => 4,
            MemoryOrder::AcqRel => 5,
            MemoryOrder::SeqCst => 6,
        }
    }
}

impl ActionKind {
    // The paper's number, 1 to 8.
    pub fn number(self) -> u8
        ensures { result ≡ kind_number self }
    {
        match self {
            ActionKind::Lock => 1,
            ActionKind::Unlock => 2,
            ActionKind::AtomicLoad(_) => 3,
            ActionKind::AtomicStore(_) => 4,
            ActionKind::ReadModifyWrite(_) => 5,
            ActionKind::Load => 6,
            ActionKind::Store => 7,
            ActionKind::Fence(_) => 8,
        }
    }

    // The number of the order that it carries, 0 where it carries none.
    pub fn order(self) -> u8
        ensures { result ≡ order_in self }
    {
        match self {
            ActionKind::AtomicLoad(m)
            | ActionKind::AtomicStore(m)
            | ActionKind::ReadModifyWrite(m)
            | ActionKind::Fence(m) => m.number(),
            _ => 0,
        }
    }

    // A read.
    pub fn reads(self) -> bool
        ensures { result ≡ among (kind_number self) (3 ∷ 5 ∷ 6 ∷ []) }
    {
        matches!(
            self,
            ActionKind::AtomicLoad(_) | ActionKind::ReadModifyWrite(_) | ActionKind::Load
        )
    }

    // A write.
    pub fn writes(self) -> bool
        ensures { result ≡ among (kind_number self) (4 ∷ 5 ∷ 7 ∷ []) }
    {
        matches!(
            self,
            ActionKind::AtomicStore(_) | ActionKind::ReadModifyWrite(_) | ActionKind::Store
        )
    }

    // An atomic action.
    pub fn is_atomic(self) -> bool
        ensures { result ≡ among (kind_number self) (3 ∷ 4 ∷ 5 ∷ []) }
    {
        matches!(
            self,
            ActionKind::AtomicLoad(_) | ActionKind::AtomicStore(_) | ActionKind::ReadModifyWrite(_)
        )
    }

    // A plain access.
    pub fn is_plain(self) -> bool
        ensures { result ≡ among (kind_number self) (6 ∷ 7 ∷ []) }
    {
        matches!(self, ActionKind::Load | ActionKind::Store)
    }

    // A fence.
    pub fn is_fence(self) -> bool
        ensures { result ≡ among (kind_number self) (8 ∷ []) }
    {
        matches!(self, ActionKind::Fence(_))
    }
}
