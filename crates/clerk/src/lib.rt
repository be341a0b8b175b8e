// Between the library and the system: what is made of a drawing file or a text goes to standard output.
#![tactic(auto)]

ghost use Rattle.std.specs.Prelude.{◌≡◌, ℕ, ◌≤◌, Ok, length, IfOk, OnErr};
ghost use Rattle.model.specs.Refusals.{number};
ghost use Rattle.std.specs.Io.{ReadsAtMost};
ghost use Rattle.report.specs.Report.{longest_report, Roomy};
ghost use Rattle.page.specs.Pens.{penned};
ghost use Rattle.drawing.specs.Files.{file_of};
ghost use Rattle.writer.specs.Saves.{Told};
ghost use Rattle.machine.specs.Machine.{run};
ghost use Rattle.machine.specs.Code.{state_of, Keeps};
ghost use Rattle.trace.specs.Traces.{steps_from, traced, traced_check, refused_step};
ghost use Rattle.clerk.specs.Numbers.{number_of};

use completer::Completion;
use drawing::LONGEST_FILE;
use machine::{Machine, steps};
use model::limits::{ORDER_LENGTH, STORE_LENGTH};
use model::refusals::Refusal;
use page::Pen;
use report::LONGEST_REPORT;
use std::env::{Env, FillError};
use std::io::{Read, Write};
use std::rt::Files;
use std::{fs, io};
use text::TEXT_ROOM;
use trace::{TRACE_ROOM, checks, lines};

// Bytes of a buffer for one argument: as many as any path has room for.
pub const WORD_ROOM: usize = 4096;

// Puts argument i at the front of a buffer, and tells its length: 0 if there is none, or no room for it.
pub fn argument<R: Env>(rt: &R, i: usize, word: &mut [u8]) -> usize
    ensures { result ≤ length word.new }
{
    rt.arg(i, word).unwrap_or(0)
}

// How many arguments there are, the program's name among them.
pub fn argument_count<R: Env>(rt: &R) -> usize {
    let mut word = [0u8; 1];
    for i in 0..usize::MAX {
        if let Err(FillError::NotPresent) = rt.arg(i, &mut word) {
            return i;
        }
    }
    usize::MAX
}

// Reads until a buffer is full or the input ends, and tells how many bytes came. After an error the buffer may hold some of them.
pub fn read_full<R: Read>(input: &mut R, buffer: &mut [u8]) -> io::Result<usize>
    ensures read { ReadsAtMost result buffer.new }
    ensures long { length buffer.new ≡ length buffer.old }
{
    let mut done = 0;
    while done < buffer.len() {
        let n = input.read(&mut buffer[done..])?;
        if n == 0 {
            return Ok(done);
        }
        done += n;
    }
    Ok(done)
}

// Says the name that argument i is, and what comes after it; then reads that file, as far as there is room. After an error the buffer may hold some of it.
pub fn read_named<R: Env + Files, W: Write>(
    rt: &R,
    output: &mut W,
    i: usize,
    after: &[u8],
    file: &mut [u8],
) -> io::Result<usize>
    ensures read { ReadsAtMost result file.new }
    ensures long { length file.new ≡ length file.old }
{
    let mut name = [0u8; WORD_ROOM];
    let n = argument(rt, i, &mut name);
    output.write_all(&name[..n])?;
    output.write_all(after)?;
    let Ok(path) = str::from_utf8(&name[..n]) else {
        return Err(io::Error::from(io::ErrorKind::InvalidFilename));
    };
    let mut opened = fs::open(rt, path)?;
    read_full(&mut opened, file)
}

// Whether the first bytes of a buffer, as many as are told, are those due.
pub fn is_due(out: &[u8], length: usize, due: &[u8]) -> bool {
    length <= out.len() && &out[..length] == due
}

// Whether a buffer that was lent full of 255 is so from byte k on.
pub fn kept_from(out: &[u8], k: usize) -> bool {
    out[k.min(out.len())..].iter().all(|b| *b == 255)
}

// The number that a text is in decimal, if that is below 2 to the 64: one digit or more, and nothing else.
pub fn number_of(text: &[u8]) -> Option<u64>
    ensures { result ≡ number_of text.now }
{
    if text.is_empty() {
        return None;
    }
    let mut value: u64 = 0;
    for &b in text {
        if b < 48 || 57 < b {
            return None;
        }
        let digit = (b - 48) as u64;
        if (u64::MAX - digit) / 10 < value {
            return None;
        }
        value = 10 * value + digit;
    }
    Some(value)
}

// Sends what was written at the front of a buffer that has room for the longest report.
fn send<W: Write>(to: &mut W, out: &[u8], written: Option<usize>) -> io::Result<()>
    requires { (length out.now ≡ longest_report) × Roomy longest_report written }
{
    to.write_all(&out[..written.unwrap()])
}

// Writes the report of a file.
pub fn report<W: Write>(output: &mut W, file: &[u8]) -> io::Result<()> {
    let mut store = [0u64; STORE_LENGTH];
    let mut order = [0u8; ORDER_LENGTH];
    let mut out = [0u8; LONGEST_REPORT];
    let written = judge::report_on(file, &mut store, &mut order, &mut out);
    send(output, &out, written)
}

// Tells a refusal on standard error.
fn tell_refusal<E: Write>(errors: &mut E, refusal: Refusal) -> io::Result<()> {
    let mut out = [0u8; LONGEST_REPORT];
    let written = report::refused(&mut out, refusal);
    send(errors, &out, written)
}

// Sends what was made at the front of a buffer; a refusal is told on standard error.
fn send_made<W: Write, E: Write>(
    output: &mut W,
    errors: &mut E,
    out: &[u8],
    made: Result<usize, Refusal>,
) -> io::Result<()>
    requires { (k : ℕ) → made ≡ Ok k → k ≤ length out.now }
{
    match made {
        Ok(k) => output.write_all(&out[..k]),
        Err(refusal) => tell_refusal(errors, refusal),
    }
}

// Writes the file that the writer makes of a file's candidate.
pub fn copy<W: Write, E: Write>(output: &mut W, errors: &mut E, file: &[u8]) -> io::Result<()> {
    let mut out = [0u8; LONGEST_FILE];
    let made = copyist::copy(file, &mut out);
    send_made(output, errors, &out, made)
}

// A buffer with room for the longest text and a byte more.
pub fn text_buffer() -> [u8; TEXT_ROOM] {
    [0u8; TEXT_ROOM]
}

// Writes the text of a file's candidate.
pub fn text<W: Write, E: Write>(output: &mut W, errors: &mut E, file: &[u8]) -> io::Result<()> {
    let mut out = text_buffer();
    let made = translator::text_of_file(file, &mut out);
    send_made(output, errors, &out, made)
}

// Writes the file of a text's candidate.
pub fn file<W: Write, E: Write>(output: &mut W, errors: &mut E, text: &[u8]) -> io::Result<()> {
    let mut out = [0u8; LONGEST_FILE];
    let made = translator::file_of_text(text, &mut out);
    send_made(output, errors, &out, made)
}

// Tells a word of at most 9 bytes and a number on standard error.
fn tell_count<E: Write>(errors: &mut E, word: &[u8], count: u64) -> io::Result<()>
    requires { length word.now ≤ 9 }
{
    let mut out = [0u8; LONGEST_REPORT];
    let written = report::counted(&mut out, word, count);
    send(errors, &out, written)
}

// Writes the file that completes a drawing without rf, sc and mo, within the budget; what came of the search is told on standard error.
pub fn find<W: Write, E: Write>(
    output: &mut W,
    errors: &mut E,
    file: &[u8],
    budget: u64,
) -> io::Result<()> {
    let mut out = [0u8; LONGEST_FILE];
    match completer::complete(file, budget, &mut out) {
        Ok(Completion::Made { judged, length }) => {
            output.write_all(&out[..length])?;
            tell_count(errors, b"found", judged)
        }
        Ok(Completion::None { judged }) => tell_count(errors, b"none", judged),
        Ok(Completion::Undecided { judged }) => tell_count(errors, b"undecided", judged),
        Err(refusal) => tell_refusal(errors, refusal),
    }
}

// ---- a trace

// A buffer with room for the longest trace and a byte more.
pub fn trace_buffer() -> [u8; TRACE_ROOM] {
    [0u8; TRACE_ROOM]
}

// The line of a refused step, whose number counts from 1.
#[tactic(auto, using(page::specs::Laws::Pens::pens))]
fn put_refused(pen: &mut Pen, count: usize, refusal: Refusal)
    ensures { pen.new ≡ penned pen.old (refused_step count (number refusal.reason)) }
{
    pen.put(b"step");
    pen.put_next(count);
    pen.line(b" refused", &[refusal.reason.number() as usize, 0]);
}

// Tells that a step was refused.
fn tell_step<W: Write>(to: &mut W, count: usize, refusal: Refusal) -> io::Result<()> {
    let mut line = [0u8; 64];
    let mut pen = Pen::new(&mut line, 64);
    put_refused(&mut pen, count, refusal);
    let k = pen.length();
    to.write_all(&line[..k])
}

// Runs the steps of a text from `at` on, and tells of each that is refused.
pub fn run_steps<W: Write>(
    to: &mut W,
    text: &[u8],
    at: usize,
    begun: Machine,
) -> io::Result<Machine>
    ensures runs { IfOk result (λ m. state_of m ≡ run (state_of begun) (steps_from (length text.now) text.now at)) }
    ensures keeps { Keeps begun → IfOk result Keeps }
{
    let mut m = begun;
    let mut q = at;
    for i in 0..text.len() {
        if text.len() <= q {
            return Ok(m);
        }
        let line = lines::line_at(text, q);
        match steps::step(m, line.step) {
            Ok(next) => {
                m = next;
            }
            Err(refusal) => tell_step(to, i + 1, refusal)?,
        }
        q = line.next;
    }
    Ok(m)
}

// Writes the file of what a text's steps come to; each refused step is told as well. Where one cannot be told, nothing is written.
pub fn file_of_trace<W: Write>(
    to: &mut W,
    text: &[u8],
    out: &mut [u8],
) -> io::Result<Result<usize, Refusal>>
    ensures told { IfOk result (λ made. Told (traced_check text.now (length out.old)) (file_of (traced text.now)) out.old made out.new) }
    ensures kept { OnErr result (out.new ≡ out.old) }
{
    match checks::begin(text) {
        Err(refusal) => Ok(Err(refusal)),
        Ok(begun) => match steps::make(begun.t, begun.p) {
            Err(refusal) => Ok(Err(refusal)),
            Ok(made) => {
                let m = run_steps(to, text, begun.at, made)?;
                Ok(console::save(m, out))
            }
        },
    }
}

// Writes the file of a trace's candidate; refused steps and a refused text are told on standard error.
pub fn trace<W: Write, E: Write>(output: &mut W, errors: &mut E, text: &[u8]) -> io::Result<()> {
    let mut out = [0u8; LONGEST_FILE];
    let made = file_of_trace(errors, text, &mut out)?;
    send_made(output, errors, &out, made)
}
