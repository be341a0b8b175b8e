// The line of a place.
#![tactic(auto, using(page::specs::Laws::Pens::pens, page::specs::Laws::Measured::written_all), unfolding(crate::specs::Spelling::place_line))]

ghost use Rattle.std.specs.Prelude.{◌≡◌};
ghost use Rattle.page.specs.Pens.{penned};
ghost use Rattle.spelling.specs.Spelling.{place_line, word_end, place_at};

use crate::{after_text, stands};
use page::Pen;

// The line of a place of kind k.
pub fn put_place(pen: &mut Pen, k: u8)
    ensures { pen.new ≡ penned pen.old (place_line k) }
{
    match k {
        0 => pen.put(b"mutex\n"),
        1 => pen.put(b"plain\n"),
        _ => pen.put(b"atomic\n"),
    }
}

// The place whose line stands at `at`.
#[tactic(auto, using(crate::specs::Laws::Steps::missed, crate::specs::Laws::Steps::found), unfolding(crate::specs::Spelling::place_at, crate::specs::Spelling::place_line))]
pub fn place_at(s: &[u8], at: usize) -> u8
    ensures { result ≡ place_at s.now at }
{
    if stands(s, at, b"mutex\n") {
        return 0;
    }
    if stands(s, at, b"plain\n") {
        return 1;
    }
    2
}

// The place after the line of a place of kind k, if it stands at `at`; else `at`.
pub fn after_place(s: &[u8], at: usize, k: u8) -> usize
    ensures { result ≡ word_end s.now at (place_line k) }
{
    after_text(s, at, &mut [0u8; 8], |pen| put_place(pen, k))
}
