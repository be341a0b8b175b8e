// The lines of a text drawing: each written onto a page, and each read from where it stands.
#![tactic(auto)]

ghost use Rattle.std.specs.Prelude.{ℕ, ◌+◌, ◌*◌, ◌-◌, ◌<◌, ◌≤◌, true, List, ◌≡◌, length, drop};
ghost use Rattle.std.specs.Borrow.{MutBor};
ghost use Rattle.page.specs.declared.Pen.{Pen};
ghost use Rattle.page.specs.Pens.{penned};
ghost use Rattle.spelling.specs.Spelling.{starts, word_end, longer, number_at, field_at};

use model::Header;
use page::Pen;

pub mod actions;
pub mod edges;
pub mod first;
pub mod places;

// A number that was read, and where it ends.
#[derive(Clone, Copy)]
pub struct Number {
    pub value: usize,
    pub next: usize,
}

// What the first line is read as, and where it ends: 0 if it isn't the line of these.
#[derive(Clone, Copy)]
pub struct FirstLine {
    pub head: Header,
    pub next: usize,
}

// Whether the line stands in s at `at`.
pub fn stands(s: &[u8], at: usize, line: &[u8]) -> bool
    ensures { result ≡ starts line.now (drop at s.now) }
{
    s[at.min(s.len())..].starts_with(line)
}

// The place after a word, if it stands at `at`; else `at`.
#[tactic(auto, unfolding(crate::specs::Spelling::word_end))]
pub fn after(s: &[u8], at: usize, word: &[u8]) -> usize
    ensures { result ≡ word_end s.now at word.now }
{
    if stands(s, at, word) {
        at + word.len()
    } else {
        at
    }
}

// Whether b makes the number x longer.
#[tactic(auto, unfolding(crate::specs::Spelling::longer))]
fn is_longer(x: usize, b: u8) -> bool
    ensures { result ≡ longer x b }
{
    b.is_ascii_digit() && x < 4294967296
}

// The number x with the digit b after it.
fn with_digit(x: usize, b: u8) -> usize
    requires { longer x b ≡ true }
    ensures { result ≡ x * 10 + (b - 48) }
{
    x * 10 + (b - b'0') as usize
}

// The number that the digits from `at` on make.
fn number_at(s: &[u8], at: usize) -> Number
    ensures { result ≡ number_at s.now at }
{
    let mut value = 0;
    for i in at..s.len() {
        if !is_longer(value, s[i]) {
            return Number { value, next: i };
        }
        value = with_digit(value, s[i]);
    }
    let next = at.max(s.len());
    Number { value, next }
}

// The number after one byte, where there is to be one; else `none`.
#[tactic(auto, unfolding(crate::specs::Spelling::field_at))]
pub fn field_at(s: &[u8], has: bool, none: usize, at: usize) -> Number
    ensures { result ≡ field_at s.now has none at }
{
    if has && at < s.len() {
        return number_at(s, at + 1);
    }
    Number {
        value: none,
        next: at,
    }
}

// The place after a text, written where there is room for it, if it stands at `at`; else `at`.
pub fn after_text<F: Fn(&mut Pen)>(s: &[u8], at: usize, room: &mut [u8], text: F) -> usize
    requires { (p : MutBor Pen) → F.pre text p }
    ensures { (t : List ℕ) → ((p q : MutBor Pen) → F.post text p tt q → q.now ≡ penned p.now t) → length t ≤ length room.old → result ≡ word_end s.now at t }
{
    let most = room.len();
    let mut pen = Pen::new(room, most);
    text(&mut pen);
    after(s, at, pen.written())
}
