// One program, many words: the first argument says what is made of the file on standard input.
#![tactic(auto)]

use clerk::WORD_ROOM;
use drawing::FILE_ROOM;
use std::io;

// What the words ask for.
#[derive(Clone, Copy)]
enum Asked {
    Report,
    Copy,
    Text,
    File,
    Trace,
    Find { budget: u64 },
    Unknown,
}

// What one word asks for.
fn one_word(rt: &HostRuntime) -> Asked {
    let mut word = [0u8; WORD_ROOM];
    let n = clerk::argument(rt, 1, &mut word);
    match &word[..n] {
        b"judge" => Asked::Report,
        b"copy" => Asked::Copy,
        b"text" => Asked::Text,
        b"file" => Asked::File,
        b"trace" => Asked::Trace,
        _ => Asked::Unknown,
    }
}

// What two words ask for: the second is a budget.
fn two_words(rt: &HostRuntime) -> Asked {
    let mut word = [0u8; WORD_ROOM];
    let n = clerk::argument(rt, 1, &mut word);
    if &word[..n] != b"find".as_slice() {
        return Asked::Unknown;
    }
    let mut number = [0u8; WORD_ROOM];
    let m = clerk::argument(rt, 2, &mut number);
    match clerk::number_of(&number[..m]) {
        Some(budget) => Asked::Find { budget },
        None => Asked::Unknown,
    }
}

// With no word the file is judged; there is no third word.
fn words(rt: &HostRuntime) -> Asked {
    let count = clerk::argument_count(rt);
    if count < 2 {
        return Asked::Report;
    }
    if count == 2 {
        return one_word(rt);
    }
    if count == 3 {
        return two_words(rt);
    }
    Asked::Unknown
}

// Makes a file of the text on standard input; one byte more than the longest text has decides the answer.
fn file_of_input(rt: &HostRuntime) -> io::Result<()> {
    let mut text = clerk::text_buffer();
    let n = clerk::read_full(&mut rt.stdin(), &mut text)?;
    clerk::file(&mut rt.stdout(), &mut rt.stderr(), &text[..n])
}

// Makes a file of the trace on standard input; one byte more than the longest trace has decides the answer.
fn file_of_steps(rt: &HostRuntime) -> io::Result<()> {
    let mut text = clerk::trace_buffer();
    let n = clerk::read_full(&mut rt.stdin(), &mut text)?;
    clerk::trace(&mut rt.stdout(), &mut rt.stderr(), &text[..n])
}

// One byte more than the longest file has decides the answer.
fn main(rt: HostRuntime) -> io::Result<()> {
    let asked = words(&rt);
    if let Asked::Unknown = asked {
        return rt.stderr().write_all(
            b"usage: jitumwala [judge | copy | find BUDGET | text | file | trace] < FILE\n",
        );
    }
    if let Asked::File = asked {
        return file_of_input(&rt);
    }
    if let Asked::Trace = asked {
        return file_of_steps(&rt);
    }
    let mut output = rt.stdout();
    let mut errors = rt.stderr();
    let mut file = [0u8; FILE_ROOM];
    let n = clerk::read_full(&mut rt.stdin(), &mut file)?;
    match asked {
        Asked::Report => clerk::report(&mut output, &file[..n]),
        Asked::Copy => clerk::copy(&mut output, &mut errors, &file[..n]),
        Asked::Text => clerk::text(&mut output, &mut errors, &file[..n]),
        Asked::Find { budget } => clerk::find(&mut output, &mut errors, &file[..n], budget),
        Asked::File | Asked::Trace | Asked::Unknown => Ok(()),
    }
}
