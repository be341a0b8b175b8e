// A candidate handed in as a lent list of actions, with relations 0 to 6 in the store: gathered by value, and checked. The second door and the writer both begin here.
#![tactic(auto)]

ghost use Rattle.std.specs.Prelude.{◌≡◌, length};
ghost use Rattle.lists.specs.Lists.{gathered, how_many, Stands};

use model::Action;
use model::limits::MOST_ACTIONS;

pub mod checks;

// How many actions a lent list has, and the first of them, by value.
#[derive(Clone, Copy)]
pub struct Gathered {
    pub list: [Action; MOST_ACTIONS],
    pub count: usize,
}

// The actions of a lent list, as many as there is room for; no action stands after them.
pub fn gather(acts: &[Action]) -> Gathered
    ensures gathers { result ≡ gathered acts.now (how_many (length acts.now)) }
    ensures stands { Stands acts.now result }
{
    let mut list = drawing::no_actions();
    for i in 0..acts.len().min(MOST_ACTIONS) {
        list[i] = acts[i];
    }
    Gathered {
        list,
        count: acts.len(),
    }
}
