// Runs each trace that an argument names, with the file that is due of it named next: writes its name, each refused step, whether its file is the one due, and the judge's report of it; or the trace's refusal.
// Then what the machine's calls refuse.
#![tactic(auto)]

use drawing::{FILE_ROOM, LONGEST_FILE};
use machine::{Machine, steps};
use model::limits::{ORDER_LENGTH, STORE_LENGTH};
use model::refusals::Refusal;
use std::io;
use std::io::{Stdout, Write};
use trace::checks;

mod calls;

// Whether a machine's candidate is judged where it lies as its file is: with the same answer, store and order.
fn judged_alike(m: Machine, file: &[u8]) -> bool {
    let mut store = [5u64; STORE_LENGTH];
    let mut order = [255u8; ORDER_LENGTH];
    let mut other_store = [5u64; STORE_LENGTH];
    let mut other_order = [255u8; ORDER_LENGTH];
    let first = console::judge(m, &mut store, &mut order);
    let second = judge::judge(file, &mut other_store, &mut other_order);
    first == second && store == other_store && order == other_order
}

// Says what becomes of a machine's candidate.
fn tell_machine(output: &mut Stdout, m: Machine, due: &[u8]) -> io::Result<()> {
    let mut out = [0u8; LONGEST_FILE];
    match console::save(m, &mut out) {
        Ok(k) => {
            let end = k.min(LONGEST_FILE);
            if clerk::is_due(&out, k, due) {
                output.write_all(b"file as due")?;
            } else {
                output.write_all(b"THE FILE DIFFERS")?;
            }
            if judged_alike(m, &out[..end]) {
                output.write_all(b", judged alike\n")?;
            } else {
                output.write_all(b", JUDGED OTHERWISE\n")?;
            }
            clerk::report(output, &out[..end])
        }
        Err(refusal) => writeln!(output, "{refusal}"),
    }
}

// The machine of a trace's first line, and where its steps begin.
fn begin(text: &[u8]) -> Result<(Machine, usize), Refusal> {
    let begun = checks::begin(text)?;
    Ok((steps::make(begun.t, begun.p)?, begun.at))
}

// Says what becomes of a trace.
fn tell(output: &mut Stdout, text: &[u8], due: &[u8]) -> io::Result<()> {
    match begin(text) {
        Err(refusal) => writeln!(output, "{refusal}"),
        Ok((begun, at)) => {
            let m = clerk::run_steps(output, text, at, begun)?;
            tell_machine(output, m, due)
        }
    }
}

// Reads the trace that argument i names, and the file that is due of it and argument j names.
fn tell_named(rt: &HostRuntime, i: usize, j: usize) -> io::Result<()> {
    let mut output = rt.stdout();
    let mut text = clerk::trace_buffer();
    let mut file = [0u8; FILE_ROOM];
    let n = clerk::read_named(rt, &mut output, i, b", ", &mut text)?;
    let k = clerk::read_named(rt, &mut output, j, b"\n", &mut file)?;
    tell(&mut output, &text[..n], &file[..k])
}

fn main(rt: HostRuntime) -> io::Result<()> {
    let count = clerk::argument_count(&rt);
    for i in 0..count / 2 {
        tell_named(&rt, 2 * i + 1, 2 * i + 2)?;
    }
    calls::tell_all(&mut rt.stdout())
}
