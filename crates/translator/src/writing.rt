// The text of a good file's candidate, whose relations stand in the store.
#![tactic(auto, using(page::specs::Laws::Pens::pens, rows::specs::Laws::Lists::joined_one), unfolding(rows::specs::Numbers::joined, text::specs::Texts::lines_of, text::specs::Texts::text_with))]

ghost use Rattle.std.specs.Prelude.{◌≡◌, ◌+◌, ◌≤◌, cond, true, [], length, get_or};
ghost use Rattle.rows.specs.Numbers.{size, has, held, joined};
ghost use Rattle.model.specs.Limits.{most_actions, most_places};
ghost use Rattle.page.specs.Page.{Offered};
ghost use Rattle.page.specs.Pens.{penned};
ghost use Rattle.page.specs.Lines.{lines, members};
ghost use Rattle.drawing.specs.Files.{place_bytes, action_at, action_of, file_length};
ghost use Rattle.spelling.specs.Spelling.{place_line, action_line, edge_line};
ghost use Rattle.text.specs.Texts.{edge_lines};
ghost use Rattle.translator.specs.Translates.{text_from};

use drawing::PLACE_BYTES;
use model::Header;
use model::limits::GIVEN_RELATIONS;
use page::Pen;
use rows::Row;
use spelling::actions::put_action;
use spelling::edges::put_relation;
use spelling::first::put_first;
use spelling::places::put_place;

// The places.
fn place_lines(pen: &mut Pen, file: &[u8], p: usize)
    requires { place_bytes + p ≤ length file.now }
    ensures { pen.new ≡ penned pen.old (joined p λ i. place_line (get_or file.now (place_bytes + i) 0)) }
{
    for i in 0..p {
        put_place(pen, file[PLACE_BYTES + i]);
    }
}

// The actions.
fn action_lines(pen: &mut Pen, file: &[u8], n: usize, p: usize)
    requires { (n ≤ most_actions) × (p ≤ most_places) × (file_length n p ≤ length file.now) }
    ensures { pen.new ≡ penned pen.old (joined n λ i. action_line (action_of file.now (action_at p i))) }
{
    for i in 0..n {
        put_action(pen, drawing::action_at(file, p, i));
    }
}

// The edges of a row.
fn row_edges(pen: &mut Pen, k: usize, a: usize, row: Row)
    ensures { pen.new ≡ penned pen.old (lines (edge_line k a) (members size (has row))) }
{
    let mut word = [0u8; 8];
    let mut relation = Pen::new(&mut word, 8);
    put_relation(&mut relation, k);
    pen.row_lines(relation.written(), Some(a), row);
}

// The edges of relation k.
fn relation_edges(pen: &mut Pen, k: usize, store: &[u64], n: usize)
    requires { (n ≤ most_actions) × (k ≤ 7) }
    ensures { pen.new ≡ penned pen.old (joined n λ a. joined n λ b. cond (held store.now k a b) (edge_line k a b) []) }
{
    for a in 0..n {
        row_edges(pen, k, a, rows::load(store, k as u32, a).before(n));
    }
}

// All edges, sorted by relation and pair.
fn edge_lines(pen: &mut Pen, store: &[u64], n: usize)
    requires { n ≤ most_actions }
    ensures { pen.new ≡ penned pen.old (edge_lines n (held store.now)) }
{
    for k in 0..GIVEN_RELATIONS {
        relation_edges(pen, k, store, n);
    }
}

// The whole text.
fn text_lines(pen: &mut Pen, file: &[u8], store: &[u64], head: Header)
    requires { (head.n ≤ most_actions) × (head.p ≤ most_places) × (file_length head.n head.p ≤ length file.now) }
    ensures { pen.new ≡ penned pen.old (text_from file.now store.now head.edition head.n head.t head.p) }
{
    put_first(pen, head);
    place_lines(pen, file, head.p);
    action_lines(pen, file, head.n, head.p);
    edge_lines(pen, store, head.n);
    pen.put(b"end\n");
}

// The same, written whole or not at all.
pub fn written_text(out: &mut [u8], file: &[u8], store: &[u64], head: Header) -> Option<usize>
    requires { (head.n ≤ most_actions) × (head.p ≤ most_places) × (file_length head.n head.p ≤ length file.now) }
    ensures { Offered true (text_from file.now store.now head.edition head.n head.t head.p) out.old out.new result }
{
    page::offer(out, |pen| text_lines(pen, file, store, head))
}
