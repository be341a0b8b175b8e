// The line of an edge.
#![tactic(auto, using(page::specs::Laws::Pens::pens, page::specs::Laws::Measured::written_all), unfolding(crate::specs::Spelling::relation_word, crate::specs::Spelling::edge_line))]

ghost use Rattle.std.specs.Prelude.{◌∷◌, ◌++◌, ◌≡◌};
ghost use Rattle.page.specs.Lines.{space, decimal};
ghost use Rattle.page.specs.Pens.{penned};
ghost use Rattle.spelling.specs.Spelling.{relation_word, edge_line, stands, word_end};

use crate::after_text;
use page::Pen;

// The word of relation k.
pub fn put_relation(pen: &mut Pen, k: usize)
    ensures { pen.new ≡ penned pen.old (relation_word k) }
{
    match k {
        0 => pen.put(b"sb"),
        1 => pen.put(b"asw"),
        2 => pen.put(b"dd"),
        3 => pen.put(b"cd"),
        4 => pen.put(b"rf"),
        5 => pen.put(b"sc"),
        _ => pen.put(b"mo"),
    }
}

// The line of the edge from a to b in relation k.
fn put_edge(pen: &mut Pen, k: usize, a: usize, b: usize)
    ensures { pen.new ≡ penned pen.old (edge_line k a b) }
{
    put_relation(pen, k);
    pen.end_line(&[a, b]);
}

// The place after the line of the edge from a to b in relation k, if it stands at `at`; else `at`.
pub fn after_edge(s: &[u8], at: usize, k: usize, a: usize, b: usize) -> usize
    ensures { result ≡ word_end s.now at (edge_line k a b) }
{
    after_text(s, at, &mut [0u8; 48], |pen| put_edge(pen, k, a, b))
}

// Whether a line of an edge from a in relation k may stand at `at`: its word and a do.
pub fn row_begins(s: &[u8], at: usize, k: usize, a: usize) -> bool
    ensures { result ≡ stands s.now at (relation_word k ++ (space ∷ decimal a)) }
{
    let mut lead = [0u8; 24];
    let mut pen = Pen::new(&mut lead, 24);
    put_relation(&mut pen, k);
    pen.put_next(a);
    crate::stands(s, at, pen.written())
}
