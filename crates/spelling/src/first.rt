// The first line: edition, N, T and P.
#![tactic(auto, using(page::specs::Laws::Pens::pens, page::specs::Laws::Measured::written_all), unfolding(crate::specs::Spelling::header_line))]

ghost use Rattle.std.specs.Prelude.{◌≡◌};
ghost use Rattle.page.specs.Pens.{penned};
ghost use Rattle.spelling.specs.Spelling.{header_line, header, word_end, edition_in, actions_in, threads_in, places_in};

use crate::{FirstLine, after_text, field_at};
use model::Header;
use page::Pen;

// The first line of a text.
pub fn put_first(pen: &mut Pen, head: Header)
    ensures { pen.new ≡ penned pen.old (header_line head.edition head.n head.t head.p) }
{
    pen.line(b"drawing", &[head.edition, head.n, head.t, head.p]);
}

// The place after the first line of these numbers.
fn after_first(s: &[u8], head: Header) -> usize
    ensures { result ≡ word_end s.now 0 (header_line head.edition head.n head.t head.p) }
{
    after_text(s, 0, &mut [0u8; 92], |pen| put_first(pen, head))
}

// What the first line is read as.
pub fn first_line(s: &[u8]) -> FirstLine
    ensures { result ≡ record { head = record { edition = edition_in s.now; n = actions_in s.now; t = threads_in s.now; p = places_in s.now }; next = word_end s.now 0 (header s.now) } }
{
    let edition = field_at(s, true, 0, 7);
    let n = field_at(s, true, 0, edition.next);
    let t = field_at(s, true, 0, n.next);
    let p = field_at(s, true, 0, t.next);
    let head = Header {
        edition: edition.value,
        n: n.value,
        t: t.value,
        p: p.value,
    };
    let next = after_first(s, head);
    FirstLine { head, next }
}
