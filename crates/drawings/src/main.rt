// Judges and copies each file that an argument names, and makes a text of it and a file of that: writes its name, its report, what the writer makes of it, and what becomes of it as a text.
#![tactic(auto)]

use drawing::{FILE_ROOM, LONGEST_FILE};
use std::io;
use std::io::{Stdout, Write};

// Says how long the copy is, if it is the file again; or how it was refused.
fn tell_copy(output: &mut Stdout, file: &[u8]) -> io::Result<()> {
    let mut out = [0u8; LONGEST_FILE];
    match copyist::copy(file, &mut out) {
        Ok(k) => {
            if clerk::is_due(&out, k, file) {
                write!(output, "copied {k}")?;
            } else {
                output.write_all(b"THE COPY DIFFERS")?;
            }
        }
        Err(refusal) => write!(
            output,
            "not copied {} {}",
            refusal.reason.number(),
            refusal.at
        )?,
    }
    output.write_all(b"\n")
}

// Whether the file of the text in the first k bytes of a buffer is this one.
fn comes_back(text: &[u8], k: usize, file: &[u8]) -> bool {
    let mut out = [0u8; LONGEST_FILE];
    match translator::file_of_text(&text[..k.min(text.len())], &mut out) {
        Ok(length) => clerk::is_due(&out, length, file),
        Err(_) => false,
    }
}

// Says how long the text is, if the file is made of it again; or how it was refused.
fn tell_text(output: &mut Stdout, file: &[u8]) -> io::Result<()> {
    let mut out = clerk::text_buffer();
    match translator::text_of_file(file, &mut out) {
        Ok(k) => {
            if comes_back(&out, k, file) {
                write!(output, "as text {k}")?;
            } else {
                output.write_all(b"THE FILE OF ITS TEXT DIFFERS")?;
            }
        }
        Err(refusal) => write!(
            output,
            "not as text {} {}",
            refusal.reason.number(),
            refusal.at
        )?,
    }
    output.write_all(b"\n")
}

fn tell_file(rt: &HostRuntime, i: usize) -> io::Result<()> {
    let mut output = rt.stdout();
    let mut file = [0u8; FILE_ROOM];
    let k = clerk::read_named(rt, &mut output, i, b"\n", &mut file)?;
    clerk::report(&mut output, &file[..k])?;
    tell_copy(&mut output, &file[..k])?;
    tell_text(&mut output, &file[..k])
}

fn main(rt: HostRuntime) -> io::Result<()> {
    let count = clerk::argument_count(&rt);
    for i in 1..count {
        tell_file(&rt, i)?;
    }
    Ok(())
}
