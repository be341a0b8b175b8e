// Makes a file of each text that an argument names: writes its name, and the length of the file or the refusal, and whether the text of that file is the text again; then what becomes of buffers of several lengths.
#![tactic(auto)]

use drawing::LONGEST_FILE;
use std::io;
use std::io::{Stdout, Write};

mod rooms;

// Whether the text of the file in the first k bytes of a buffer is this one.
fn comes_back(file: &[u8], k: usize, text: &[u8]) -> bool {
    let mut out = clerk::text_buffer();
    match translator::text_of_file(&file[..k.min(file.len())], &mut out) {
        Ok(length) => clerk::is_due(&out, length, text),
        Err(_) => false,
    }
}

// Says how long the file of a text is, and whether the text is made of it again; or how it was refused.
fn tell_file(output: &mut Stdout, text: &[u8]) -> io::Result<()> {
    let mut out = [0u8; LONGEST_FILE];
    match translator::file_of_text(text, &mut out) {
        Ok(k) => {
            write!(output, "file {k}")?;
            if comes_back(&out, k, text) {
                output.write_all(b" and back")?;
            } else {
                output.write_all(b" BUT THE TEXT DIFFERS")?;
            }
        }
        Err(refusal) => write!(output, "{refusal}")?,
    }
    output.write_all(b"\n")
}

fn tell_text(rt: &HostRuntime, i: usize) -> io::Result<()> {
    let mut output = rt.stdout();
    let mut text = clerk::text_buffer();
    let k = clerk::read_named(rt, &mut output, i, b": ", &mut text)?;
    tell_file(&mut output, &text[..k])
}

fn main(rt: HostRuntime) -> io::Result<()> {
    let count = clerk::argument_count(&rt);
    for i in 1..count {
        tell_text(&rt, i)?;
    }
    rooms::tell_all(&mut rt.stdout())
}
