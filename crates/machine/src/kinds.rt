// The kinds that write, as the machine tells them apart.
ghost use Rattle.std.specs.Prelude.{[], ◌∷◌, ◌≡◌};
ghost use Rattle.machine.specs.Machine.{is_kind};

use model::ActionKind;

// A store, which waits in its thread's queue.
pub fn is_store(what: ActionKind) -> bool
    ensures { result ≡ is_kind (4 ∷ []) what }
{
    matches!(what, ActionKind::AtomicStore(_))
}

// A read-modify-write, which acts on memory at once.
pub fn is_rmw(what: ActionKind) -> bool
    ensures { result ≡ is_kind (5 ∷ []) what }
{
    matches!(what, ActionKind::ReadModifyWrite(_))
}
