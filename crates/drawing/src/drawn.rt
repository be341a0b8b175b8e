// A drawing that is open: a file that passed its check, and what its first record says.
#![tactic(auto)]

ghost use Rattle.std.specs.Prelude.{◌≡◌, cond, ℕ, ◌<◌, ◌≤◌, [], Ok, Err, true, ltb, length, get_or, MatchResult};
ghost use Rattle.rows.specs.Numbers.{listed, rel, held};
ghost use Rattle.model.specs.Limits.{most_actions, given_relations, given_length};
ghost use Rattle.model.specs.Actions.{no_action};
ghost use Rattle.model.specs.Candidates.{action_ok, given};
ghost use Rattle.drawing.specs.Open.{Heads};
ghost use Rattle.drawing.specs.Files.{candidate_of, check_of, read_with};

use crate::PLACE_BYTES;
use model::limits::MOST_ACTIONS;
use model::refusals::Refusal;
use model::{Action, Header};

#[derive(Clone, Copy)]
pub struct Drawing<'a> {
    file: &'a [u8],
    head: Header,
    ghost good: { check_of file.now ≡ Ok head },
    ghost bytes: { (i : ℕ) → get_or file.now i 0 < 256 },
}

impl<'a> Drawing<'a> {
    // Opens a file of any bytes, if it passes its check.
    pub fn open(file: &'a [u8]) -> Result<Drawing<'a>, Refusal>
        ensures { MatchResult result (λ d. (d.file.now ≡ file.now) × (check_of file.now ≡ Ok d.head)) (λ r. check_of file.now ≡ Err r) }
    {
        let head = crate::check_file(file)?;
        Ok(Drawing { file, head })
    }

    // Opens it beside a store of `store` numbers and an order buffer of `order` bytes.
    pub fn read(file: &'a [u8], store: usize, order: usize) -> Result<Drawing<'a>, Refusal>
        ensures { MatchResult result (λ d. (d.file.now ≡ file.now) × (read_with file.now store order ≡ Ok d.head)) (λ r. read_with file.now store order ≡ Err r) }
    {
        let head = crate::check(file, store, order)?;
        Ok(Drawing { file, head })
    }

    // Its edition, N, T and P.
    pub fn head(&self) -> Header
        ensures value { result ≡ self.now.head }
        ensures heads { Heads (candidate_of self.now.file.now) result }
    {
        self.head
    }

    // Its place bytes.
    pub fn places(&self) -> &'a [u8]
        ensures { result.now ≡ (candidate_of self.now.file.now).places }
    {
        &self.file[PLACE_BYTES..PLACE_BYTES + self.head.p]
    }

    // Action i.
    pub fn action(&self, i: usize) -> Action
        requires { i < self.now.head.n }
        ensures value { result ≡ get_or (candidate_of self.now.file.now).acts i no_action }
        ensures kept { action_ok self.now.head.t self.now.head.p result ≡ true }
    {
        crate::action_at(self.file, self.head.p, i)
    }

    // Its actions, and none after them.
    pub fn actions(&self) -> [Action; MOST_ACTIONS]
        ensures { result ≡ listed most_actions (λ i. get_or (candidate_of self.now.file.now).acts i no_action) }
    {
        crate::actions(self.file, self.head.n, self.head.p)
    }

    // Relations 0 to 6 go to the front of the store; the relations after them stay.
    pub fn fill(&self, store: &mut [u64])
        requires { given_length ≤ length store.old }
        ensures { (j : ℕ) → held store.new j ≡ cond (ltb j given_relations) (rel (get_or (given (candidate_of self.now.file.now)) j [])) (held store.old j) }
    {
        crate::fill(self.file, store, self.head.n, self.head.p);
    }
}
