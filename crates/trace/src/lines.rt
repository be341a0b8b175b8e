// The lines of a trace: the first, and one for each step.
#![tactic(auto, using(page::specs::Laws::Pens::pens, page::specs::Laws::Measured::written_all), unfolding(crate::specs::Traces::step_line))]

ghost use Rattle.std.specs.Prelude.{◌≡◌};
ghost use Rattle.page.specs.Pens.{penned};
ghost use Rattle.spelling.specs.Spelling.{word_end};
ghost use Rattle.machine.specs.declared.Step.TheVariants.{Does};
ghost use Rattle.trace.specs.Traces.{machine_line, step_line, value_in, threads_in, places_in, first_line, action_read, step_read, line_end};

use crate::{FirstLine, Line};
use drawing::kinds;
use machine::Step;
use model::ActionKind;
use page::Pen;
use spelling::{Number, actions, after_text, field_at, stands};

// A number of 32 bits; any other is read as 0.
#[tactic(auto, unfolding(spelling::specs::Spelling::clipped))]
fn value_in(x: Number) -> usize
    ensures { result ≡ value_in x }
{
    u32::try_from(x.value).unwrap_or(0) as usize
}

// ---- the first line

// The place after the first line of these numbers.
fn after_first(s: &[u8], t: usize, p: usize) -> usize
    ensures { result ≡ word_end s.now 0 (machine_line t p) }
{
    after_text(s, 0, &mut [0u8; 56], |pen| pen.line(b"machine", &[t, p]))
}

// What the first line is read as.
pub fn first_line(s: &[u8]) -> FirstLine
    ensures { result ≡ record { t = threads_in s.now; p = places_in s.now; next = word_end s.now 0 (first_line s.now) } }
{
    let threads = field_at(s, true, 0, 7);
    let places = field_at(s, true, 0, threads.next);
    let t = value_in(threads);
    let p = value_in(places);
    FirstLine {
        t,
        p,
        next: after_first(s, t, p),
    }
}

// ---- the line of a step, written

fn put_action(pen: &mut Pen, what: ActionKind, thread: usize, place: usize, written: usize)
    ensures { pen.new ≡ penned pen.old (step_line (Does what thread place written)) }
{
    let k = what.number();
    actions::put_kind(pen, k);
    actions::put_part(pen, true, thread);
    actions::put_part(pen, actions::has_place(k), place);
    actions::put_order(pen, what.order());
    actions::put_part(pen, actions::has_written(k), written);
    pen.put_byte(b'\n');
}

fn put_step(pen: &mut Pen, step: Step)
    ensures { pen.new ≡ penned pen.old (step_line step) }
{
    match step {
        Step::Does {
            what,
            thread,
            place,
            written,
        } => put_action(pen, what, thread, place, written),
        Step::Drains { thread } => pen.line(b"drain", &[thread]),
    }
}

// ---- and read

// The action whose line stands at `at`.
#[tactic(auto, unfolding(crate::specs::Traces::action_read))]
fn action_at(s: &[u8], at: usize) -> Step
    ensures { result ≡ action_read s.now at }
{
    let k = actions::kind_at(s, at);
    let thread = field_at(s, true, 0, actions::after_kind(s, at, k));
    let place = field_at(s, actions::has_place(k), 0, thread.next);
    let o = actions::order_of_kind(s, place.next, k);
    let after = actions::after_order(s, place.next, o);
    let written = field_at(s, actions::has_written(k), 0, after);
    Step::Does {
        what: kinds::kind_of(k, o),
        thread: value_in(thread),
        place: value_in(place),
        written: value_in(written),
    }
}

// The step whose line stands at `at`.
#[tactic(auto, unfolding(crate::specs::Traces::step_read))]
fn step_at(s: &[u8], at: usize) -> Step
    ensures { result ≡ step_read s.now at }
{
    if stands(s, at, b"drain") {
        return Step::Drains {
            thread: value_in(field_at(s, true, 0, at + 5)),
        };
    }
    action_at(s, at)
}

// The place after the line of a step, if it stands at `at`; else `at`.
fn after_step(s: &[u8], at: usize, step: Step) -> usize
    ensures { result ≡ word_end s.now at (step_line step) }
{
    after_text(s, at, &mut [0u8; 88], |pen| put_step(pen, step))
}

// The step whose line stands at `at`, and where the line ends.
pub fn line_at(s: &[u8], at: usize) -> Line
    ensures { result ≡ record { step = step_read s.now at; next = line_end s.now at } }
{
    let step = step_at(s, at);
    Line {
        step,
        next: after_step(s, at, step),
    }
}
