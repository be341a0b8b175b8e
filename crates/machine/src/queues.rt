// What waits in a thread's queue, what is in memory, and where a read reads from.
ghost use Rattle.std.specs.Prelude.{◌&&◌, ◌≡◌, eqb, ◌<◌, ◌≤◌};
ghost use Rattle.rows.specs.Sets.{any, before};
ghost use Rattle.rows.specs.Numbers.{has};
ghost use Rattle.model.specs.Limits.{most_actions, most_places};
ghost use Rattle.machine.specs.Machine.{latest, found};
ghost use Rattle.machine.specs.Code.{waits, waits_at, stays, worth_in, state_of};

use crate::Machine;
use model::Action;
use model::limits::MOST_ACTIONS;
use rows::Row;

// Whether an action is one of the thread's that wait.
fn queued(x: Action, waits: bool, thread: usize) -> bool
    ensures { result ≡ (waits && eqb x.thread thread) }
{
    waits && x.thread as usize == thread
}

// The stores of the thread's queue.
pub fn queue(acts: [Action; MOST_ACTIONS], waiting: Row, thread: usize, n: usize) -> Row
    requires { n ≤ most_actions }
    ensures { has result ≡ before (waits acts (has waiting) thread) n }
{
    rows::select(n, |a| queued(acts[a], waiting.contains(a), thread))
}

// Whether a store waits in the thread's queue: the first one decides.
pub fn is_filled(acts: [Action; MOST_ACTIONS], waiting: Row, thread: usize, n: usize) -> bool
    requires { n ≤ most_actions }
    ensures { result ≡ any n (waits acts (has waiting) thread) }
{
    for a in 0..n {
        if queued(acts[a], waiting.contains(a), thread) {
            return true;
        }
    }
    false
}

// Whether an action is one of the thread's that wait, for the place.
fn queued_at(x: Action, waits: bool, thread: usize, place: usize) -> bool
    ensures { result ≡ ((waits && eqb x.thread thread) && eqb x.place place) }
{
    queued(x, waits, thread) && x.place as usize == place
}

// One more than the newest store of the thread's queue for the place, or 0.
fn newest(
    acts: [Action; MOST_ACTIONS],
    waiting: Row,
    thread: usize,
    place: usize,
    n: usize,
) -> usize
    requires { n ≤ most_actions }
    ensures { result ≡ latest n (waits_at acts (has waiting) thread place) }
{
    for a in (0..n).rev() {
        if queued_at(acts[a], waiting.contains(a), thread, place) {
            return a + 1;
        }
    }
    0
}

// The writes of the place that are in memory.
pub fn there(acts: [Action; MOST_ACTIONS], waiting: Row, place: usize, n: usize) -> Row
    requires { n ≤ most_actions }
    ensures { has result ≡ before (stays acts (has waiting) place) n }
{
    rows::select(n, |a| {
        let x = acts[a];
        x.what.writes() && !waiting.contains(a) && x.place as usize == place
    })
}

// Where a read of the thread at the place reads from.
#[tactic(auto, unfolding(crate::specs::Machine::found, crate::specs::Code::state_of))]
pub fn find(m: Machine, thread: usize, place: usize) -> usize
    requires { place < most_places }
    ensures { result ≡ found (state_of m) thread place }
{
    let own = newest(m.acts, m.waiting, thread, place, m.n);
    if own == 0 { m.memory[place] } else { own }
}

// The value that is found there.
pub fn value_of(acts: [Action; MOST_ACTIONS], s: usize) -> u32
    ensures { result ≡ worth_in acts s }
{
    if s == 0 {
        return 0;
    }
    acts.get(s - 1).map_or(0, |x| x.written)
}
