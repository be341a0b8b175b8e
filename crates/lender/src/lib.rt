// The second door, the finder and the writer for actions held by value: the first of an array are lent.
#![tactic(auto)]

ghost use Rattle.std.specs.Prelude.{take};
ghost use Rattle.second.specs.Door.{Door};
ghost use Rattle.finder.specs.Finding.{Find};
ghost use Rattle.writer.specs.Saves.{Save};

use choices::Outcome;
use model::limits::MOST_ACTIONS;
use model::refusals::Refusal;
use model::{Action, Header, Judged};

// The second door, of the first k actions of an array: of all of them where k is more.
pub fn judge_first(
    list: [Action; MOST_ACTIONS],
    k: usize,
    places: &[u8],
    head: Header,
    store: &mut [u64],
    order: &mut [u8],
) -> Result<Judged, Refusal>
    ensures { Door (take k list) places.now head.edition head.n head.t head.p store.old order.old result store.new order.new }
{
    second::judge_list(&list[..k.min(MOST_ACTIONS)], places, head, store, order)
}

// The finder, of the first k actions of an array.
pub fn find_first(
    list: [Action; MOST_ACTIONS],
    k: usize,
    places: &[u8],
    head: Header,
    store: &mut [u64],
    budget: u64,
) -> Result<Outcome, Refusal>
    ensures { Find (take k list) places.now head.edition head.n head.t head.p store.old budget result store.new }
{
    finder::find_list(&list[..k.min(MOST_ACTIONS)], places, head, store, budget)
}

// The writer, of the first k actions of an array.
pub fn save_first(
    list: [Action; MOST_ACTIONS],
    k: usize,
    places: &[u8],
    head: Header,
    store: &[u64],
    out: &mut [u8],
) -> Result<usize, Refusal>
    ensures { Save (take k list) places.now head.edition head.n head.t head.p store.now out.old result out.new }
{
    writer::save_list(&list[..k.min(MOST_ACTIONS)], places, head, store, out)
}
