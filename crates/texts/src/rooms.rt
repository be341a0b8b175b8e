// Buffers for D's file and for D's text: all that are too short, one as long, and a longer one.
use clerk::{is_due, kept_from};
use model::refusals::{Reason, Refusal};
use std::io;
use std::io::{Stdout, Write};

// Bytes of a buffer: more than D's file has, and more than its text.
const ROOM: usize = 600;

// What is answered where the buffer is too short.
const NO_ROOM: Refusal = Refusal {
    reason: Reason::ShortBuffer,
    at: 0,
};

// What is made: a file of a text, or a text of a file.
#[derive(Clone, Copy)]
enum Wanted {
    File,
    Text,
}

// Makes what is wanted in the first `room` bytes of a buffer.
fn make(wanted: Wanted, of: &[u8], room: usize, out: &mut [u8]) -> Result<usize, Refusal> {
    let end = room.min(out.len());
    match wanted {
        Wanted::File => translator::file_of_text(of, &mut out[..end]),
        Wanted::Text => translator::text_of_file(of, &mut out[..end]),
    }
}

// Whether a buffer of `room` bytes is refused with 9 at 0, and left as it was.
fn refuses(wanted: Wanted, of: &[u8], room: usize) -> bool {
    let mut out = [255u8; ROOM];
    make(wanted, of, room, &mut out) == Err(NO_ROOM) && kept_from(&out, 0)
}

// How many buffers of fewer than `length` bytes are refused so.
fn refused_below(wanted: Wanted, of: &[u8], length: usize) -> usize {
    let mut refused = 0;
    for room in 0..length {
        if refuses(wanted, of, room) {
            refused += 1;
        }
    }
    refused
}

// Whether what is due is made in a buffer of `room` bytes, and the rest is as it was.
fn makes(wanted: Wanted, of: &[u8], room: usize, due: &[u8]) -> bool {
    let mut out = [255u8; ROOM];
    match make(wanted, of, room, &mut out) {
        Err(_) => false,
        Ok(k) => is_due(&out, k, due) && kept_from(&out, k),
    }
}

// All of this for one of the two.
fn tell(output: &mut Stdout, name: &[u8], wanted: Wanted, of: &[u8], due: &[u8]) -> io::Result<()> {
    let length = due.len();
    output.write_all(name)?;
    output.write_all(b": of ")?;
    write!(output, "{length}")?;
    output.write_all(b" shorter buffers refused 9 0, all kept: ")?;
    write!(output, "{}", refused_below(wanted, of, length))?;
    if makes(wanted, of, length, due) {
        output.write_all(b"; made in one as long")?;
    } else {
        output.write_all(b"; NOT MADE IN ONE AS LONG")?;
    }
    if makes(wanted, of, ROOM, due) {
        output.write_all(b", and in a longer one, rest kept\n")
    } else {
        output.write_all(b", NOT IN A LONGER ONE\n")
    }
}

fn tell_d(output: &mut Stdout, text: &[u8]) -> io::Result<()> {
    let mut file = [255u8; ROOM];
    match translator::file_of_text(text, &mut file) {
        Err(_) => output.write_all(b"D IS REFUSED\n"),
        Ok(k) => {
            let end = k.min(ROOM);
            tell(output, b"D's file", Wanted::File, text, &file[..end])?;
            tell(output, b"D's text", Wanted::Text, &file[..end], text)
        }
    }
}

// Says how something bad is refused where there is no buffer, either.
fn tell_bad(output: &mut Stdout, name: &[u8], wanted: Wanted, of: &[u8]) -> io::Result<()> {
    let mut out = [255u8; ROOM];
    output.write_all(name)?;
    output.write_all(b", no buffer: ")?;
    match make(wanted, of, 0, &mut out) {
        Err(refusal) => write!(output, "{refusal}")?,
        Ok(_) => output.write_all(b"MADE")?,
    }
    output.write_all(b"\n")
}

pub fn tell_all(output: &mut Stdout) -> io::Result<()> {
    tell_d(
        output,
        b"drawing 1 6 3 2\nplain\natomic\nstore 0 0 0\nastore 0 1 relaxed 0\nstore 1 0 1\nastore 1 1 release 1\naload 2 1 relaxed 1\nload 2 0 0\nsb 0 1\nsb 2 3\nsb 4 5\nasw 1 2\nasw 1 4\nrf 0 5\nrf 3 4\nmo 1 3\nend\n",
    )?;
    tell_bad(output, b"a bad text", Wanted::File, b"end\n")?;
    tell_bad(output, b"a bad file", Wanted::Text, b"end")
}
