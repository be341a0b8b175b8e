// Both doors on the same candidates: each file that an argument names; then each refusal of the second door, of the finder and of the writer.
#![tactic(auto)]

use drawing::{Drawing, FILE_ROOM};
use model::limits::{ORDER_LENGTH, STORE_LENGTH};
use std::io;
use std::io::{Stdout, Write};

mod refusals;

// Numbers of a store, and bytes of an order buffer, with one more than is asked for.
const NUMBERS: usize = STORE_LENGTH + 1;

const BYTES: usize = ORDER_LENGTH + 1;

// Judges a file by the first door, and its candidate by the second, on stores and buffers that held the same; says whether all is the same.
fn compare(output: &mut Stdout, file: &[u8]) -> io::Result<()> {
    let mut store = [5u64; NUMBERS];
    let mut order = [255u8; BYTES];
    let first = judge::judge(file, &mut store, &mut order);
    match Drawing::read(file, NUMBERS, BYTES) {
        Err(_) => output.write_all(b"no candidate\n"),
        Ok(drawing) => {
            let head = drawing.head();
            let mut other_store = [5u64; NUMBERS];
            let mut other_order = [255u8; BYTES];
            drawing.fill(&mut other_store);
            let second = lender::judge_first(
                drawing.actions(),
                head.n,
                drawing.places(),
                head,
                &mut other_store,
                &mut other_order,
            );
            if first == second && store == other_store && order == other_order {
                output.write_all(b"the doors agree\n")
            } else {
                output.write_all(b"THE DOORS DIFFER\n")
            }
        }
    }
}

fn compare_file(rt: &HostRuntime, i: usize) -> io::Result<()> {
    let mut output = rt.stdout();
    let mut file = [0u8; FILE_ROOM];
    let k = clerk::read_named(rt, &mut output, i, b": ", &mut file)?;
    compare(&mut output, &file[..k])
}

fn main(rt: HostRuntime) -> io::Result<()> {
    let count = clerk::argument_count(&rt);
    for i in 1..count {
        compare_file(&rt, i)?;
    }
    refusals::tell_all(&mut rt.stdout())
}
