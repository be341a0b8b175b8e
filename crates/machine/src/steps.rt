// A machine made, and its steps, one a call.
ghost use Rattle.std.specs.Prelude.{true, cond, ◌≡◌, ◌+◌, ◌<◌, set};
ghost use Rattle.model.specs.Limits.{most_threads, most_places};
ghost use Rattle.machine.specs.declared.Step.TheVariants.{Does, Drains};
ghost use Rattle.machine.specs.Machine.{most_traced, value_limit, start, machine_ok, reading, done, arrived, Reached};
ghost use Rattle.machine.specs.Code.{state_of, noted, moved, Keeps, Makes, Steps, Stepped};

use crate::kinds::{is_rmw, is_store};
use crate::queues::{find, queue, there, value_of};
use crate::refusals::refuse;
use crate::{MOST_TRACED, Machine, Step};
use model::limits::{MOST_PLACES, MOST_THREADS};
use model::refusals::{Reason, Refusal};
use model::{Action, ActionKind};
use rows::Row;

// ---- made

// A machine of t threads and p places that has done nothing.
fn fresh(t: usize, p: usize) -> Machine
    requires { machine_ok t p ≡ true }
    ensures { (state_of result ≡ start t p) × Keeps result }
{
    let none = Row::empty();
    Machine {
        acts: drawing::no_actions(),
        source: [0usize; MOST_TRACED],
        memory: [0usize; MOST_PLACES],
        before: [none; MOST_TRACED],
        waiting: none,
        t,
        p,
        n: 0,
    }
}

// Whether there may be t threads and p places.
#[tactic(auto, unfolding(crate::specs::Machine::machine_ok))]
fn is_machine(t: usize, p: usize) -> bool
    ensures { result ≡ machine_ok t p }
{
    t <= MOST_THREADS && p <= MOST_PLACES
}

// A machine of t threads and p places, or a refusal.
pub fn make(t: usize, p: usize) -> Result<Machine, Refusal>
    ensures { Makes t p result }
{
    Reason::OutOfLimit.unless(is_machine(t, p), 0)?;
    Ok(fresh(t, p))
}

// ---- an action

// Where an action reads from; 0 if it reads nothing.
fn source_of(m: Machine, what: ActionKind, thread: usize, place: usize) -> usize
    requires { place < most_places }
    ensures { result ≡ reading (state_of m) what thread place }
{
    match what {
        ActionKind::AtomicLoad(_) | ActionKind::ReadModifyWrite(_) => find(m, thread, place),
        _ => 0,
    }
}

// Action x is noted: it read from s, b was in memory before it, and w wait now; memory is that.
#[tactic(auto, unfolding(crate::specs::Code::state_of))]
fn note(m: Machine, x: Action, s: usize, b: Row, w: Row, memory: [usize; MOST_PLACES]) -> Machine
    requires { (m.n < most_traced) × (x.place < most_places) × ∥ Reached (noted m x s b w memory) ∥₁ }
    ensures { state_of result ≡ noted m x s b w memory }
{
    let mut r = m;
    let n = r.n;
    r.acts[n] = x;
    r.source[n] = s;
    r.before[n] = b;
    r.waiting = w;
    r.memory = memory;
    r.n = n + 1;
    r
}

// Memory at the place is w's, or nothing is written.
fn remember(
    memory: [usize; MOST_PLACES],
    place: usize,
    w: usize,
    is_written: bool,
) -> [usize; MOST_PLACES]
    requires { (place < most_places) × (w < most_traced) }
    ensures { result ≡ cond is_written (set memory place (w + 1)) memory }
{
    let mut r = memory;
    if is_written {
        r[place] = w + 1;
    }
    r
}

// The action is done: what it reads, what waits after it, what was in memory before it.
fn perform(m: Machine, what: ActionKind, thread: usize, place: usize, written: usize) -> Machine
    requires { (m.n < most_traced) × (thread < most_threads) × (place < most_places) × (written < value_limit) × ∥ Reached (done (state_of m) what thread place written) ∥₁ }
    ensures { state_of result ≡ done (state_of m) what thread place written }
{
    let n = m.n;
    let s = source_of(m, what, thread, place);
    let x = Action {
        what,
        thread: thread as u16,
        place: place as u16,
        read: value_of(m.acts, s),
        written: written as u32,
    };
    let b = there(m.acts, m.waiting, place, n).only_if(is_rmw(what));
    let w = m.waiting.without(n).with_if(n, is_store(what));
    let memory = remember(m.memory, place, n, is_rmw(what));
    note(m, x, s, b, w, memory)
}

// Does an action, or refuses it.
#[tactic(auto, using(crate::specs::Laws::Reaching::stepped_taken, crate::specs::Laws::Reaching::stepped_refused))]
fn act(
    m: Machine,
    what: ActionKind,
    thread: usize,
    place: usize,
    written: usize,
) -> Result<Machine, Refusal>
    ensures { Stepped (state_of m) (Does what thread place written) result }
{
    refuse(m, what, thread, place, written)?;
    Ok(perform(m, what, thread, place, written))
}

// ---- a drain

// Store w, at the place, arrives in memory, where `there` are.
fn arrive(m: Machine, w: usize, place: usize, there: Row) -> Machine
    requires { (w < most_traced) × (place < most_places) × ∥ Reached (moved m w place there) ∥₁ }
    ensures { state_of result ≡ moved m w place there }
{
    let mut r = m;
    r.memory[place] = w + 1;
    r.before[w] = there;
    r.waiting = m.waiting.without(w);
    r
}

// Store w, below n, arrives in memory.
#[tactic(auto, using(crate::specs::Laws::Arrays::moved_state))]
fn move_out(m: Machine, w: usize) -> Machine
    requires { (w < m.n) × ∥ Reached (arrived (state_of m) w) ∥₁ }
    ensures { state_of result ≡ arrived (state_of m) w }
{
    let place = m.acts[w].place as usize;
    arrive(m, w, place, there(m.acts, m.waiting, place, m.n))
}

// Drains the oldest store of a thread's queue, or refuses to.
fn drain(m: Machine, thread: usize) -> Result<Machine, Refusal>
    ensures { Stepped (state_of m) (Drains thread) result }
{
    Reason::OutOfLimit.unless(thread < m.t, 0)?;
    let queue = queue(m.acts, m.waiting, thread, m.n);
    Reason::WrongQueue.unless(!queue.is_empty(), 0)?;
    Ok(move_out(m, queue.lowest()))
}

// ---- a step

// One step of a machine, or its refusal.
pub fn step(m: Machine, s: Step) -> Result<Machine, Refusal>
    ensures stepped { Stepped (state_of m) s result }
    ensures steps { Keeps m → Steps (state_of m) s result }
{
    match s {
        Step::Does {
            what,
            thread,
            place,
            written,
        } => act(m, what, thread, place, written),
        Step::Drains { thread } => drain(m, thread),
    }
}
