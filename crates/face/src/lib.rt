// What a program in C or Rust calls: the first door, its answer as twelve numbers.
#![tactic(auto)]

ghost use Rattle.std.specs.Prelude.{cond, ◌++◌, ◌≡◌, ◌≤◌, length, drop};
ghost use Rattle.drawing.specs.Files.{read_of};
ghost use Rattle.judge.specs.Answers.{answer_by, store_by, order_by};
ghost use Rattle.face.specs.Face.{refusal, given, ruling, broken, judged, told, answer_length, room, MiddlePlaced, VerdictPlaced, Placed};

use model::refusals::Refusal;
use model::{Judged, OrderPart, Verdict};

// Numbers of an answer.
const ANSWER_LENGTH: usize = 12;

// The twelve numbers of a refusal.
fn refusal_numbers(no: u32, at: u32) -> [u32; ANSWER_LENGTH]
    ensures { result ≡ refusal no at }
{
    [0, no, at, 0, 0, 0, 0, 0, 0, 0, 0, 0]
}

// Whether a serial order was given.
fn given(part: OrderPart) -> u32
    ensures { result ≡ given part }
{
    match part {
        OrderPart::Given => 1,
        OrderPart::Refused => 0,
    }
}

// The twelve numbers of a judgement, with the rule broken, its pair, whether there is a middle and which, or zeros.
fn ruling_numbers(j: Judged, rule: u32, a: u32, b: u32, named: u32, z: u32) -> [u32; ANSWER_LENGTH]
    ensures { result ≡ ruling j rule a b named z }
{
    [
        1,
        0,
        0,
        rule,
        a,
        b,
        j.indeterminate,
        j.unsequenced,
        j.races,
        given(j.order),
        named,
        z,
    ]
}

// The twelve numbers of a judgement by which a rule is broken.
fn broken_numbers(
    j: Judged,
    rule: u32,
    a: u32,
    b: u32,
    middle: Option<usize>,
) -> [u32; ANSWER_LENGTH]
    requires { MiddlePlaced middle }
    ensures { result ≡ broken j rule a b middle }
{
    match middle {
        None => ruling_numbers(j, rule, a, b, 0, 0),
        Some(z) => ruling_numbers(j, rule, a, b, 1, z as u32),
    }
}

// The twelve numbers of a judgement.
fn judged_numbers(j: Judged) -> [u32; ANSWER_LENGTH]
    requires { VerdictPlaced j.verdict }
    ensures { result ≡ judged j j.verdict }
{
    match j.verdict {
        Verdict::Passed => ruling_numbers(j, 0, 0, 0, 0, 0),
        Verdict::Broken { rule, a, b, middle } => {
            broken_numbers(j, rule, a as u32, b as u32, middle)
        }
    }
}

// The twelve numbers of an answer.
fn numbers(a: Result<Judged, Refusal>) -> [u32; ANSWER_LENGTH]
    requires { Placed a }
    ensures { result ≡ told a }
{
    match a {
        Err(refusal) => refusal_numbers(refusal.reason.number(), refusal.at as u32),
        Ok(j) => judged_numbers(j),
    }
}

// The twelve numbers to the front of the caller's; those beyond stay.
fn tell(answer: &mut [u32], a: Result<Judged, Refusal>)
    requires { (answer_length ≤ length answer.old) × Placed a }
    ensures { answer.new ≡ told a ++ drop answer_length answer.old }
{
    answer[..ANSWER_LENGTH].copy_from_slice(&numbers(a));
}

// Judges a file of any bytes and answers true; with fewer than twelve numbers for the answer it answers false and touches nothing.
#[unsafe(no_mangle)]
pub extern "C" fn jitumwala_judge(
    file: &[u8],
    store: &mut [u64],
    order: &mut [u8],
    answer: &mut [u32],
) -> bool
    ensures value { result ≡ room answer.old }
    ensures store_after { store.new ≡ cond (room answer.old) (store_by (read_of file.now store.old order.old) file.now store.old) store.old }
    ensures order_after { order.new ≡ cond (room answer.old) (order_by (read_of file.now store.old order.old) file.now order.old) order.old }
    ensures answer_after { answer.new ≡ cond (room answer.old) (told (answer_by (read_of file.now store.old order.old) file.now) ++ drop answer_length answer.old) answer.old }
{
    if answer.len() < ANSWER_LENGTH {
        return false;
    }
    tell(answer, judge::judge(file, store, order));
    true
}
