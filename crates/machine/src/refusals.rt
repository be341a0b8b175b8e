// The refusal of a step.
ghost use Rattle.std.specs.Prelude.{◌&&◌, ◌||◌, [], ◌∷◌, ◌≡◌, eqb};
ghost use Rattle.rows.specs.Sets.{any};
ghost use Rattle.rows.specs.Numbers.{has};
ghost use Rattle.machine.specs.declared.Step.TheVariants.{Does};
ghost use Rattle.machine.specs.Machine.{is_kind, taken, ordered, fits, refusal};
ghost use Rattle.machine.specs.Code.{waits, state_of};

use crate::kinds::{is_rmw, is_store};
use crate::queues::is_filled;
use crate::{MOST_TRACED, Machine};
use model::refusals::{Reason, Refusal};
use model::{ActionKind, MemoryOrder};

// Values are below this.
const VALUE_LIMIT: usize = 4294967296;

// An atomic load, store or RMW, neither consume nor seq_cst.
#[tactic(auto, unfolding(crate::specs::Machine::taken))]
fn is_taken(what: ActionKind) -> bool
    ensures { result ≡ taken what }
{
    match what {
        ActionKind::AtomicLoad(o) | ActionKind::AtomicStore(o) | ActionKind::ReadModifyWrite(o) => {
            !matches!(o, MemoryOrder::Consume | MemoryOrder::SeqCst)
        }
        _ => false,
    }
}

// An order that rule 1 allows.
#[tactic(auto, unfolding(crate::specs::Machine::ordered))]
fn is_ordered(what: ActionKind) -> bool
    ensures { result ≡ ordered what }
{
    match what {
        ActionKind::AtomicLoad(o) => matches!(
            o,
            MemoryOrder::Relaxed | MemoryOrder::Consume | MemoryOrder::Acquire | MemoryOrder::SeqCst
        ),
        ActionKind::AtomicStore(o) => matches!(
            o,
            MemoryOrder::Relaxed | MemoryOrder::Release | MemoryOrder::SeqCst
        ),
        _ => true,
    }
}

// Whether the kind writes, or nothing is written.
fn is_written(what: ActionKind, written: usize) -> bool
    ensures { result ≡ (is_kind (4 ∷ 5 ∷ []) what || eqb written 0) }
{
    is_store(what) || is_rmw(what) || written == 0
}

// Whether every field is within its limit, and the order one that rule 1 allows.
#[tactic(auto, unfolding(crate::specs::Machine::fits, crate::specs::Code::state_of))]
fn is_fitting(m: Machine, what: ActionKind, thread: usize, place: usize, written: usize) -> bool
    ensures { result ≡ fits (state_of m) what thread place written }
{
    thread < m.t
        && place < m.p
        && written < VALUE_LIMIT
        && is_written(what, written)
        && is_ordered(what)
}

// Whether an RMW finds its thread's queue filled.
fn is_blocked(m: Machine, what: ActionKind, thread: usize) -> bool
    ensures { result ≡ (is_kind (5 ∷ []) what && any m.n (waits m.acts (has m.waiting) thread)) }
{
    is_rmw(what) && is_filled(m.acts, m.waiting, thread, m.n)
}

// Passes an action, or refuses it.
#[tactic(auto, unfolding(crate::specs::Machine::refusal, crate::specs::Code::state_of))]
pub fn refuse(
    m: Machine,
    what: ActionKind,
    thread: usize,
    place: usize,
    written: usize,
) -> Result<(), Refusal>
    ensures { result ≡ refusal (state_of m) (Does what thread place written) }
{
    Reason::NotTraced.unless(is_taken(what), 0)?;
    Reason::OutOfLimit.unless(is_fitting(m, what, thread, place, written), 0)?;
    Reason::TooManyActions.unless(m.n < MOST_TRACED, 0)?;
    Reason::WrongQueue.unless(!is_blocked(m, what, thread), 0)
}
