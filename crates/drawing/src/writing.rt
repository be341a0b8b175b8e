// The records of a file, each written by a pen.
#![tactic(auto, using(page::specs::Laws::Pens::pens), unfolding(crate::specs::Files::head_of, crate::specs::Files::header_of, crate::specs::Files::places_of, crate::specs::Files::action_record))]

ghost use Rattle.std.specs.Prelude.{◌≡◌, ◌++◌, ◌+◌, ◌*◌, ◌^◌, ◌≤◌};
ghost use Rattle.rows.specs.Numbers.{width};
ghost use Rattle.model.specs.Limits.{most_actions};
ghost use Rattle.page.specs.Pens.{penned};
ghost use Rattle.drawing.specs.Files.{le, head_of, header_of, places_of, action_record, row_bytes, rows_length, end_of};

use crate::layout;
use model::{Action, Header};
use page::Pen;

// A number in `width` bytes, least byte first.
#[tactic(auto, using(page::specs::Laws::Pens::penned_nothing), unfolding(crate::specs::Files::le))]
pub fn put_number(pen: &mut Pen, width: usize, x: u64)
    ensures { pen.new ≡ penned pen.old (le width x) }
{
    let mut rest = x;
    for _ in 0..width {
        pen.put_byte((rest % 256) as u8);
        rest /= 256;
    }
}

// Length of payload, kind.
fn put_head(pen: &mut Pen, kind: u64, len: u64)
    ensures { pen.new ≡ penned pen.old (head_of kind len) }
{
    put_number(pen, 2, len);
    put_number(pen, 2, kind);
}

// Edition, N, T and P.
pub fn put_header(pen: &mut Pen, head: Header)
    ensures { pen.new ≡ penned pen.old (header_of head.edition head.n head.t head.p) }
{
    put_head(pen, 1, 8);
    put_number(pen, 2, head.edition as u64);
    put_number(pen, 2, head.n as u64);
    put_number(pen, 2, head.t as u64);
    put_number(pen, 2, head.p as u64);
}

// A byte per place.
pub fn put_places(pen: &mut Pen, p: usize, places: &[u8])
    ensures { pen.new ≡ penned pen.old (places_of p places.now) }
{
    put_head(pen, 2, p as u64);
    pen.put(places);
}

// One action.
pub fn put_action(pen: &mut Pen, x: Action)
    ensures { pen.new ≡ penned pen.old (action_record x) }
{
    put_head(pen, 3, 16);
    put_number(pen, 1, x.what.number() as u64);
    put_number(pen, 1, x.what.order() as u64);
    put_number(pen, 2, x.thread as u64);
    put_number(pen, 2, x.place as u64);
    put_number(pen, 2, 0);
    put_number(pen, 4, x.read as u64);
    put_number(pen, 4, x.written as u64);
}

// What stands before the rows of relation k of n actions.
pub fn put_relation_head(pen: &mut Pen, n: usize, k: usize)
    requires { n ≤ most_actions }
    ensures { pen.new ≡ penned pen.old (head_of 4 (2 + rows_length n n) ++ le 2 k) }
{
    put_head(pen, 4, (2 + layout::rows_length(n, n)) as u64);
    put_number(pen, 2, k as u64);
}

// One row of n actions, low half first.
pub fn put_row(pen: &mut Pen, n: usize, low: u64, high: u64)
    ensures { pen.new ≡ penned pen.old (le (row_bytes n) (high * 2 ^ width + low)) }
{
    put_number(pen, 8, low);
    if rows::WIDTH < n {
        put_number(pen, 8, high);
    }
}

// The end.
pub fn put_end(pen: &mut Pen)
    ensures { pen.new ≡ penned pen.old end_of }
{
    put_head(pen, 5, 0);
}
