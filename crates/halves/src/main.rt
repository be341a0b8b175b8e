// Completes each half drawing that an argument names, with the budget in the next argument, and compares what is made with the file named after that; then the same by the finder's door, and what it leaves in the store.
#![tactic(auto)]

use choices::Outcome;
use clerk::WORD_ROOM;
use completer::Completion;
use drawing::{Drawing, FILE_ROOM, LONGEST_FILE};
use model::limits::{ORDER_LENGTH, STORE_LENGTH};
use model::refusals::Refusal;
use std::io;
use std::io::{Stdout, Write};

// Numbers of a store with one more than is asked for.
const NUMBERS: usize = STORE_LENGTH + 1;

// Says the answer; how long the file is that was made, 0 for none.
fn say_completed(output: &mut Stdout, completed: Result<Completion, Refusal>) -> io::Result<usize> {
    match completed {
        Err(refusal) => write!(output, "{refusal}")?,
        Ok(Completion::Made { judged, length }) => {
            write!(output, "found {judged}")?;
            return Ok(length);
        }
        Ok(Completion::None { judged }) => write!(output, "none {judged}")?,
        Ok(Completion::Undecided { judged }) => write!(output, "undecided {judged}")?,
    }
    Ok(0)
}

// The file that is made is the one due.
fn tell_made(output: &mut Stdout, file: &[u8], budget: u64, due: &[u8]) -> io::Result<()> {
    let mut out = [255u8; LONGEST_FILE];
    let completed = completer::complete(file, budget, &mut out);
    let length = say_completed(output, completed)?;
    if clerk::is_due(&out, length, due) {
        output.write_all(b", as due")
    } else {
        output.write_all(b", ANOTHER FILE")
    }
}

// The store of a candidate's file, as the judge leaves it.
fn judged(due: &[u8]) -> [u64; NUMBERS] {
    let mut store = [5u64; NUMBERS];
    let mut order = [255u8; ORDER_LENGTH];
    let _ = judge::judge(due, &mut store, &mut order);
    store
}

// The store of an open drawing, with nothing derived.
fn cleared(drawing: Drawing) -> [u64; NUMBERS] {
    let mut store = [0u64; NUMBERS];
    store[STORE_LENGTH] = 5;
    drawing.fill(&mut store);
    store
}

// The store due after a finding: as the judge leaves that of the file due, cleared where nothing is found, and as it was lent after a refusal.
fn due_store(
    finding: Result<Outcome, Refusal>,
    lent: [u64; NUMBERS],
    drawing: Drawing,
    due: &[u8],
) -> [u64; NUMBERS] {
    match finding {
        Err(_) => lent,
        Ok(Outcome::Found { judged: _ }) => judged(due),
        Ok(_) => cleared(drawing),
    }
}

// The finder's door on an open drawing: its store is as due.
fn tell_store(output: &mut Stdout, drawing: Drawing, budget: u64, due: &[u8]) -> io::Result<()> {
    let head = drawing.head();
    let mut store = [5u64; NUMBERS];
    drawing.fill(&mut store);
    let lent = store;
    let finding = lender::find_first(
        drawing.actions(),
        head.n,
        drawing.places(),
        head,
        &mut store,
        budget,
    );
    if store == due_store(finding, lent, drawing, due) {
        output.write_all(b", store as due\n")
    } else {
        output.write_all(b", ANOTHER STORE\n")
    }
}

// The same of any file.
fn tell_door(output: &mut Stdout, file: &[u8], budget: u64, due: &[u8]) -> io::Result<()> {
    match Drawing::open(file) {
        Err(_) => output.write_all(b", no candidate\n"),
        Ok(drawing) => tell_store(output, drawing, budget, due),
    }
}

// The drawing, the budget and the file due that these arguments name.
fn tell(rt: &HostRuntime, drawing: usize, number: usize, found: usize) -> io::Result<()> {
    let mut output = rt.stdout();
    let mut file = [0u8; FILE_ROOM];
    let k = clerk::read_named(rt, &mut output, drawing, b" ", &mut file)?;
    let mut word = [0u8; WORD_ROOM];
    let m = clerk::argument(rt, number, &mut word);
    output.write_all(&word[..m])?;
    output.write_all(b" ")?;
    let mut due = [0u8; FILE_ROOM];
    let d = clerk::read_named(rt, &mut output, found, b": ", &mut due)?;
    match clerk::number_of(&word[..m]) {
        None => output.write_all(b"NO BUDGET\n"),
        Some(budget) => {
            tell_made(&mut output, &file[..k], budget, &due[..d])?;
            tell_door(&mut output, &file[..k], budget, &due[..d])
        }
    }
}

// Three arguments at a time.
fn main(rt: HostRuntime) -> io::Result<()> {
    let count = clerk::argument_count(&rt);
    for i in 0..count / 3 {
        tell(&rt, 3 * i + 1, 3 * i + 2, 3 * i + 3)?;
    }
    Ok(())
}
