// The writer: the drawing file of a candidate whose actions are a lent list of records, with relations 0 to 6 in the store.
#![tactic(auto, using(page::specs::Laws::Pens::pens, rows::specs::Laws::Lists::joined_one, crate::specs::Laws::Saving::relation_text_lem, crate::specs::Laws::Saving::file_text), unfolding(rows::specs::Numbers::joined))]

ghost use Rattle.std.specs.Prelude.{◌≡◌, ◌+◌, ◌*◌, ◌≤◌, length};
ghost use Rattle.rows.specs.Numbers.{area, joined};
ghost use Rattle.model.specs.Limits.{most_actions, given_relations, given_length};
ghost use Rattle.page.specs.Pens.{penned};
ghost use Rattle.drawing.specs.Files.{le, action_record, row_bytes, relation_record, file_of};
ghost use Rattle.lists.specs.Lists.{action_at, row_in, rows_in, list_candidate};
ghost use Rattle.writer.specs.Saves.{Save};

use drawing::writing;
use model::limits::{GIVEN_RELATIONS, MOST_ACTIONS};
use model::refusals::{Reason, Refusal};
use model::{Action, Header};
use page::Pen;

// The records of the n actions.
fn put_actions(pen: &mut Pen, list: [Action; MOST_ACTIONS], n: usize)
    requires { n ≤ most_actions }
    ensures { pen.new ≡ penned pen.old (joined n λ i. action_record (action_at list i)) }
{
    for i in 0..n {
        writing::put_action(pen, list[i]);
    }
}

// The n rows of relation k.
fn put_rows(pen: &mut Pen, store: &[u64], n: usize, k: usize)
    requires { (n ≤ most_actions) × (area * k + area ≤ length store.now) }
    ensures { pen.new ≡ penned pen.old (joined n λ a. le (row_bytes n) (row_in store.now k a)) }
{
    for a in 0..n {
        let i = rows::AREA * k + rows::WIDE * a;
        writing::put_row(pen, n, store[i], store[i + 1]);
    }
}

// The record of relation k.
fn put_relation(pen: &mut Pen, store: &[u64], n: usize, k: usize)
    requires { (n ≤ most_actions) × (area * k + area ≤ length store.now) }
    ensures { pen.new ≡ penned pen.old (relation_record n k (rows_in store.now n k)) }
{
    writing::put_relation_head(pen, n, k);
    put_rows(pen, store, n, k);
}

// The records of the given relations.
fn put_relations(pen: &mut Pen, store: &[u64], n: usize)
    requires { (n ≤ most_actions) × (given_length ≤ length store.now) }
    ensures { pen.new ≡ penned pen.old (joined given_relations λ k. relation_record n k (rows_in store.now n k)) }
{
    for k in 0..GIVEN_RELATIONS {
        put_relation(pen, store, n, k);
    }
}

// The whole file.
fn put_file(pen: &mut Pen, list: [Action; MOST_ACTIONS], places: &[u8], head: Header, store: &[u64])
    requires { (head.n ≤ most_actions) × (given_length ≤ length store.now) }
    ensures { pen.new ≡ penned pen.old (file_of (list_candidate list places.now head.edition head.n head.t head.p store.now)) }
{
    writing::put_header(pen, head);
    writing::put_places(pen, head.p, places);
    put_actions(pen, list, head.n);
    put_relations(pen, store, head.n);
    writing::put_end(pen);
}

// The writer: the file of a lent list of actions at places of these kinds, with relations 0 to 6 in the store.
pub fn save_list(
    acts: &[Action],
    places: &[u8],
    head: Header,
    store: &[u64],
    out: &mut [u8],
) -> Result<usize, Refusal>
    ensures { Save acts.now places.now head.edition head.n head.t head.p store.now out.old result out.new }
{
    let g = lists::gather(acts);
    lists::checks::check(g, places, store, head)?;
    let length = drawing::file_length(head.n, head.p);
    if out.len() < length {
        return Err(Refusal {
            reason: Reason::ShortBuffer,
            at: 0,
        });
    }
    let mut pen = Pen::new(out, length);
    put_file(&mut pen, g.list, places, head, store);
    Ok(length)
}
