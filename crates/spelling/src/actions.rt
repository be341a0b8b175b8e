// The line of an action.
#![tactic(auto, using(page::specs::Laws::Pens::pens, page::specs::Laws::Measured::written_all), unfolding(crate::specs::Spelling::kind_word, crate::specs::Spelling::order_word, crate::specs::Spelling::part, crate::specs::Spelling::action_line, crate::specs::Spelling::has_place, crate::specs::Spelling::has_order, crate::specs::Spelling::has_read, crate::specs::Spelling::has_written))]

ghost use Rattle.std.specs.Prelude.{cond, ◌≡◌};
ghost use Rattle.page.specs.Pens.{penned};
ghost use Rattle.spelling.specs.Spelling.{kind_word, order_word, has_place, has_order, has_read, has_written, part, action_line, clipped, kind_at, order_at, word_end, action_read};

use crate::{after_text, field_at, stands};
use drawing::kinds;
use model::Action;
use page::Pen;

// ---- what a kind has
// A kind is its number here, as in kind_at, kind_word and has_place of specs/: a line is read word by word, and the order that the kind carries comes last.

pub fn has_place(k: u8) -> bool
    ensures { result ≡ has_place k }
{
    k != 8
}

pub fn has_order(k: u8) -> bool
    ensures { result ≡ has_order k }
{
    matches!(k, 3 | 4 | 5 | 8)
}

pub fn has_read(k: u8) -> bool
    ensures { result ≡ has_read k }
{
    matches!(k, 3 | 5 | 6)
}

pub fn has_written(k: u8) -> bool
    ensures { result ≡ has_written k }
{
    matches!(k, 4 | 5 | 7)
}

// ---- written

// The word of kind k: arms, for a table would need a default beside it, and another one for the orders.
pub fn put_kind(pen: &mut Pen, k: u8)
    ensures { pen.new ≡ penned pen.old (kind_word k) }
{
    match k {
        1 => pen.put(b"lock"),
        2 => pen.put(b"unlock"),
        3 => pen.put(b"aload"),
        4 => pen.put(b"astore"),
        5 => pen.put(b"rmw"),
        6 => pen.put(b"load"),
        7 => pen.put(b"store"),
        _ => pen.put(b"fence"),
    }
}

// The word of order o after a space, if it has one.
pub fn put_order(pen: &mut Pen, o: u8)
    ensures { pen.new ≡ penned pen.old (order_word o) }
{
    match o {
        1 => pen.put(b" relaxed"),
        2 => pen.put(b" consume"),
        3 => pen.put(b" acquire"),
        4 => pen.put(b" release"),
        5 => pen.put(b" acq_rel"),
        6 => pen.put(b" seq_cst"),
        _ => {}
    }
}

// A number after a space, where the kind has it.
pub fn put_part(pen: &mut Pen, has: bool, n: usize)
    ensures { pen.new ≡ penned pen.old (part has n) }
{
    if has {
        pen.put_next(n);
    }
}

// The line of an action.
pub fn put_action(pen: &mut Pen, x: Action)
    ensures { pen.new ≡ penned pen.old (action_line x) }
{
    let k = x.what.number();
    put_kind(pen, k);
    put_part(pen, true, x.thread as usize);
    put_part(pen, has_place(k), x.place as usize);
    put_order(pen, x.what.order());
    put_part(pen, has_read(k), x.read as usize);
    put_part(pen, has_written(k), x.written as usize);
    pen.put_byte(b'\n');
}

// ---- read

// The kind whose word stands at `at`: one test after another, for a table's index would have to be mapped, 7 to kind 8 here and 6 to order 0 below.
#[tactic(auto, using(crate::specs::Laws::Steps::missed, crate::specs::Laws::Steps::found), unfolding(crate::specs::Spelling::kind_at, crate::specs::Spelling::kind_word))]
pub fn kind_at(s: &[u8], at: usize) -> u8
    ensures { result ≡ kind_at s.now at }
{
    if stands(s, at, b"lock") {
        return 1;
    }
    if stands(s, at, b"unlock") {
        return 2;
    }
    if stands(s, at, b"aload") {
        return 3;
    }
    if stands(s, at, b"astore") {
        return 4;
    }
    if stands(s, at, b"rmw") {
        return 5;
    }
    if stands(s, at, b"load") {
        return 6;
    }
    if stands(s, at, b"store") {
        return 7;
    }
    8
}

// The order whose word stands at `at`.
#[tactic(auto, using(crate::specs::Laws::Steps::missed, crate::specs::Laws::Steps::found), unfolding(crate::specs::Spelling::order_at, crate::specs::Spelling::order_word))]
fn order_at(s: &[u8], at: usize) -> u8
    ensures { result ≡ order_at s.now at }
{
    if stands(s, at, b" relaxed") {
        return 1;
    }
    if stands(s, at, b" consume") {
        return 2;
    }
    if stands(s, at, b" acquire") {
        return 3;
    }
    if stands(s, at, b" release") {
        return 4;
    }
    if stands(s, at, b" acq_rel") {
        return 5;
    }
    if stands(s, at, b" seq_cst") {
        return 6;
    }
    0
}

// The order of a line of kind k.
pub fn order_of_kind(s: &[u8], at: usize, k: u8) -> u8
    ensures { result ≡ cond (has_order k) (order_at s.now at) 0 }
{
    if has_order(k) { order_at(s, at) } else { 0 }
}

// The place after the word of kind k.
pub fn after_kind(s: &[u8], at: usize, k: u8) -> usize
    ensures { result ≡ word_end s.now at (kind_word k) }
{
    after_text(s, at, &mut [0u8; 8], |pen| put_kind(pen, k))
}

// The place after the word of order o.
pub fn after_order(s: &[u8], at: usize, o: u8) -> usize
    ensures { result ≡ word_end s.now at (order_word o) }
{
    after_text(s, at, &mut [0u8; 8], |pen| put_order(pen, o))
}

// A number of 16 bits; any other is read as 0.
#[tactic(auto, unfolding(crate::specs::Spelling::clipped))]
fn clip_short(x: usize) -> u16
    ensures { result ≡ clipped 65536 x }
{
    u16::try_from(x).unwrap_or(0)
}

// A number of 32 bits; any other is read as 0.
#[tactic(auto, unfolding(crate::specs::Spelling::clipped))]
fn clip_word(x: usize) -> u32
    ensures { result ≡ clipped 4294967296 x }
{
    u32::try_from(x).unwrap_or(0)
}

// The action whose line stands at `at`.
#[tactic(auto, unfolding(crate::specs::Spelling::action_read))]
pub fn action_at(s: &[u8], at: usize) -> Action
    ensures { result ≡ action_read s.now at }
{
    let k = kind_at(s, at);
    let thread = field_at(s, true, 0, after_kind(s, at, k));
    let place = field_at(s, has_place(k), 65535, thread.next);
    let o = order_of_kind(s, place.next, k);
    let read = field_at(s, has_read(k), 0, after_order(s, place.next, o));
    let written = field_at(s, has_written(k), 0, read.next);
    Action {
        what: kinds::kind_of(k, o),
        thread: clip_short(thread.value),
        place: clip_short(place.value),
        read: clip_word(read.value),
        written: clip_word(written.value),
    }
}

// The place after the line of x, if it stands at `at`; else `at`.
pub fn after_action(s: &[u8], at: usize, x: Action) -> usize
    ensures { result ≡ word_end s.now at (action_line x) }
{
    after_text(s, at, &mut [0u8; 64], |pen| put_action(pen, x))
}
