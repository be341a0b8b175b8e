// What the machine's calls refuse: machines beyond the limits, each number of a step's refusal with what else is wrong beside it, and buffers that are too short.
ghost use Rattle.machine.specs.Code.{Keeps};

use clerk::kept_from;
use machine::{MOST_TRACED, Machine, Step, steps};
use model::limits::{ORDER_LENGTH, STORE_LENGTH};
use model::refusals::Refusal;
use model::{ActionKind, MemoryOrder};
use std::io;
use std::io::{Stdout, Write};

// Says whether something was taken, or by which number it was refused.
fn say_outcome<T: Drop>(output: &mut Stdout, outcome: Result<T, Refusal>) -> io::Result<()> {
    match outcome {
        Ok(_) => output.write_all(b": taken\n"),
        Err(refusal) => writeln!(output, ": refused {}", refusal.reason.number()),
    }
}

// ---- machines

fn tell_make(output: &mut Stdout, t: usize, p: usize) -> io::Result<()> {
    write!(output, "machine {t} {p}")?;
    say_outcome(output, steps::make(t, p))
}

fn tell_makes(output: &mut Stdout) -> io::Result<()> {
    tell_make(output, 0, 0)?;
    tell_make(output, 16, 64)?;
    tell_make(output, 17, 64)?;
    tell_make(output, 16, 65)?;
    tell_make(output, 65536, 0)?;
    tell_make(output, 0, 4294967296)
}

// ---- steps

fn does(what: ActionKind, thread: usize, place: usize, written: usize) -> Step {
    Step::Does {
        what,
        thread,
        place,
        written,
    }
}

// Of 2 threads and 1 place; a store of thread 1 waits.
fn small() -> Machine
    ensures { Keeps result }
{
    let made = steps::make(2, 1).unwrap();
    let what = ActionKind::AtomicStore(MemoryOrder::Relaxed);
    steps::step(made, does(what, 1, 0, 5)).unwrap_or(made)
}

// The same, full of loads of thread 0.
fn full() -> Machine
    ensures { Keeps result }
{
    let mut m = small();
    let what = ActionKind::AtomicLoad(MemoryOrder::Relaxed);
    for _ in 0..MOST_TRACED {
        m = steps::step(m, does(what, 0, 0, 0)).unwrap_or(m);
    }
    m
}

// Says what becomes of a step of the small machine, and of the full one.
fn tell_step(output: &mut Stdout, name: &[u8], step: Step) -> io::Result<()> {
    let first = steps::step(small(), step);
    let second = steps::step(full(), step);
    output.write_all(name)?;
    say_outcome(output, first)?;
    output.write_all(b"when full, ")?;
    output.write_all(name)?;
    say_outcome(output, second)
}

// Kinds and orders that are refused, whatever else is wrong.
fn tell_kinds(output: &mut Stdout) -> io::Result<()> {
    tell_step(output, b"lock", does(ActionKind::Lock, 0, 0, 0))?;
    tell_step(
        output,
        b"unlock out of all limits",
        does(ActionKind::Unlock, 9, 9, 9),
    )?;
    tell_step(output, b"load", does(ActionKind::Load, 0, 0, 0))?;
    tell_step(
        output,
        b"store in thread T",
        does(ActionKind::Store, 2, 0, 1),
    )?;
    tell_step(
        output,
        b"fence",
        does(ActionKind::Fence(MemoryOrder::Acquire), 0, 0, 0),
    )?;
    tell_step(
        output,
        b"consume at place P",
        does(ActionKind::AtomicLoad(MemoryOrder::Consume), 0, 1, 0),
    )?;
    tell_step(
        output,
        b"seq_cst store",
        does(ActionKind::AtomicStore(MemoryOrder::SeqCst), 0, 0, 1),
    )?;
    tell_step(
        output,
        b"seq_cst RMW with a filled queue",
        does(ActionKind::ReadModifyWrite(MemoryOrder::SeqCst), 1, 0, 1),
    )
}

// Fields out of their limits.
fn tell_fields(output: &mut Stdout) -> io::Result<()> {
    let load = ActionKind::AtomicLoad(MemoryOrder::Relaxed);
    let store = ActionKind::AtomicStore(MemoryOrder::Relaxed);
    let rmw = ActionKind::ReadModifyWrite(MemoryOrder::AcqRel);
    tell_step(output, b"thread T", does(load, 2, 0, 0))?;
    tell_step(output, b"thread 65536", does(load, 65536, 0, 0))?;
    tell_step(output, b"place P", does(store, 0, 1, 0))?;
    tell_step(output, b"place 65536", does(store, 0, 65536, 0))?;
    tell_step(output, b"a load that writes", does(load, 0, 0, 1))?;
    tell_step(output, b"the largest value", does(store, 0, 0, 4294967295))?;
    tell_step(output, b"a larger value", does(store, 0, 0, 4294967296))?;
    tell_step(
        output,
        b"RMW of it with a filled queue",
        does(rmw, 1, 0, 4294967296),
    )?;
    tell_step(output, b"drain of thread T", Step::Drains { thread: 2 })?;
    tell_step(
        output,
        b"drain of thread 65537",
        Step::Drains { thread: 65537 },
    )
}

// Orders that rule 1 forbids.
fn tell_orders(output: &mut Stdout) -> io::Result<()> {
    tell_step(
        output,
        b"release load",
        does(ActionKind::AtomicLoad(MemoryOrder::Release), 0, 0, 0),
    )?;
    tell_step(
        output,
        b"acq_rel load",
        does(ActionKind::AtomicLoad(MemoryOrder::AcqRel), 0, 0, 0),
    )?;
    tell_step(
        output,
        b"acquire store",
        does(ActionKind::AtomicStore(MemoryOrder::Acquire), 0, 0, 0),
    )?;
    tell_step(
        output,
        b"acq_rel store",
        does(ActionKind::AtomicStore(MemoryOrder::AcqRel), 0, 0, 0),
    )
}

// Queues that are filled or empty.
fn tell_queues(output: &mut Stdout) -> io::Result<()> {
    let rmw = ActionKind::ReadModifyWrite(MemoryOrder::Relaxed);
    tell_step(output, b"RMW with an empty queue", does(rmw, 0, 0, 1))?;
    tell_step(output, b"RMW with a filled queue", does(rmw, 1, 0, 1))?;
    tell_step(
        output,
        b"drain of an empty queue",
        Step::Drains { thread: 0 },
    )?;
    tell_step(
        output,
        b"drain of a filled queue",
        Step::Drains { thread: 1 },
    )
}

// ---- buffers

fn say_kept(output: &mut Stdout, kept: bool) -> io::Result<()> {
    if kept {
        output.write_all(b"all kept\n")
    } else {
        output.write_all(b"NOT KEPT\n")
    }
}

// A store and an order buffer that lack one number or byte.
const SHORT_STORE: usize = STORE_LENGTH - 1;

const SHORT_ORDER: usize = ORDER_LENGTH - 1;

// Says what the judge answers with a short store, and tells whether all was kept.
fn keeps_short_store(output: &mut Stdout, m: Machine) -> io::Result<bool> {
    let due = [5u64; SHORT_STORE];
    let mut store = [5u64; SHORT_STORE];
    let mut order = [255u8; ORDER_LENGTH];
    output.write_all(b"judge with a short store")?;
    say_outcome(output, console::judge(m, &mut store, &mut order))?;
    Ok(store == due && kept_from(&order, 0))
}

// The same with a short order buffer.
fn keeps_short_order(output: &mut Stdout, m: Machine) -> io::Result<bool> {
    let due = [5u64; STORE_LENGTH];
    let mut store = [5u64; STORE_LENGTH];
    let mut order = [255u8; SHORT_ORDER];
    output.write_all(b"judge with a short order buffer")?;
    say_outcome(output, console::judge(m, &mut store, &mut order))?;
    Ok(store == due && kept_from(&order, 0))
}

// Says what is saved in a short buffer, and whether all was kept.
fn tell_short_save(output: &mut Stdout, m: Machine) -> io::Result<()> {
    let mut out = [255u8; 64];
    output.write_all(b"save in a short buffer")?;
    say_outcome(output, console::save(m, &mut out))?;
    say_kept(output, kept_from(&out, 0))
}

fn tell_rooms(output: &mut Stdout) -> io::Result<()> {
    let m = small();
    let with_store = keeps_short_store(output, m)?;
    let with_order = keeps_short_order(output, m)?;
    say_kept(output, with_store && with_order)?;
    tell_short_save(output, m)
}

pub fn tell_all(output: &mut Stdout) -> io::Result<()> {
    tell_makes(output)?;
    tell_kinds(output)?;
    tell_fields(output)?;
    tell_orders(output)?;
    tell_queues(output)?;
    tell_rooms(output)
}
