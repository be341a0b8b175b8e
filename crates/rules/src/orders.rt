// Rules 4, 6, 10 and 14: the test of an order finds, in the row of an action, where it offends, and the middle at the first of these.
ghost use Rattle.std.specs.Prelude.{◌≡◌, ◌&&◌, not, ℕ, ◌≤◌, ltb, Option};
ghost use Rattle.rows.specs.Sets.{Set, both, either, less, before, image, converse};
ghost use Rattle.rows.specs.Numbers.{size, has, held};
ghost use Rattle.model.specs.Model.{Book};
ghost use Rattle.desk.specs.Reading.{over};
ghost use Rattle.rules.specs.Promises.{relation, tested_by, inside_of, told, decided, Finds, FindsStrict, FindsTotal, FindsRule};

use crate::edges::writes_of_row;
use crate::{Found, Tested};
use desk::Desk;
use model::{AT_ATOMIC, AT_MUTEX, CD, DD, MO, PLACE, SB, SC, SC_ACTION, WORDS};
use rows::Row;

// Row a of the relation tested.
fn row_of(t: Tested, d: &[u64], a: usize) -> Row
    ensures { has result ≡ relation (held d.now) t a }
{
    match t {
        Tested::Whole(k) => rows::load(d, k, a),
        Tested::Kept { w, k } => desk::kept_row(d, w, k, a),
    }
}

// What the relation tested leads to from the members below n.
fn onward(from: Row, t: Tested, d: &[u64], n: usize) -> Row
    ensures { has result ≡ image n (has from) (relation (held d.now) t) }
{
    match t {
        Tested::Whole(k) => rows::join(from, d, k, n),
        Tested::Kept { w, k } => {
            rows::join_in(from.and(rows::load(d, WORDS, w)), d, PLACE, d, k, n)
        }
    }
}

// The members from which the relation tested leads to b.
fn leading(from: Row, t: Tested, d: &[u64], b: usize) -> Row
    ensures { has result ≡ both (has from) (converse (relation (held d.now) t) b) }
{
    match t {
        Tested::Whole(k) => rows::column(from, d, k, b),
        Tested::Kept { w, k } => {
            let near = rows::column(from.and(rows::load(d, WORDS, w)), d, PLACE, b);
            rows::column(near, d, k, b)
        }
    }
}

impl Found {
    // The middle at b.
    pub fn middle(self, d: &[u64], n: usize, b: usize) -> Option<usize>
        ensures { n ≤ size → result ≡ told n (held d.now) self b }
    {
        let row = self.row;
        let tested = self.tested;
        let z = leading(row.only_if(!row.contains(b)), tested, d, b).lowest();
        (z < n).then_some(z)
    }

    // Where either offends; the middle is the first one's, unless the other offends earlier.
    fn or(self, other: Found) -> Self
        ensures { (n : ℕ) (ρ : Book) (s t : Set) (l m : ℕ → Option ℕ) → n ≤ size → Finds n ρ s l self → Finds n ρ t m other → Finds n ρ (either s t) (decided s l m) result }
    {
        let ours = self.offences;
        let theirs = other.offences;
        let offences = ours.or(theirs);
        if theirs.lowest() < ours.lowest() {
            Found { offences, ..other }
        } else {
            Found { offences, ..self }
        }
    }
}

// Where the relation tested is no strict order, of its row of a and what that leads on to: the lowest test of an order.
fn strict_test(row: Row, onward: Row, t: Tested, a: usize) -> Found
    ensures { (n : ℕ) (ρ : Book) → has row ≡ relation ρ t a → has onward ≡ image n (has row) (relation ρ t) → FindsStrict n ρ (relation ρ t) a result }
{
    Found {
        offences: row.at(a).or(onward.minus(row)),
        row,
        tested: t,
    }
}

// The actions inside and after a that the row of a does not lead to.
fn apart_row(row: Row, inside: Row, a: usize) -> Row
    ensures { has result ≡ (λ b. ltb a b && has inside b && not (has row b)) }
{
    inside.after(a).minus(row)
}

// Those apart from a that do not lead back to it either.
fn unpaired_row(apart: Row, t: Tested, d: &[u64], a: usize) -> Row
    ensures { (n : ℕ) → n ≤ size → before (has result) n ≡ before (less (has apart) (both (has apart) (converse (relation (held d.now) t) a))) n }
{
    if apart.is_empty() {
        return apart;
    }
    apart.minus(leading(apart, t, d, a))
}

// Where the relation tested is not total on the actions inside.
fn total_test(inside: Row, t: Tested, d: &[u64], n: usize, a: usize) -> Found
    ensures { FindsTotal n (held d.now) (has inside) (relation (held d.now) t) a result }
{
    let row = row_of(t, d, a);
    let unpaired = unpaired_row(apart_row(row, inside, a), t, d, a);
    let strict = strict_test(row, onward(row, t, d, n), t, a);
    let offences = strict.offences;
    Found {
        offences: offences.or(row.minus(inside)).or(unpaired),
        row,
        tested: t,
    }
}

// Where relation k is no strict order.
fn whole_test(k: u32, d: &[u64], n: usize, a: usize) -> Found
    ensures { FindsStrict n (held d.now) (held d.now k) a result }
{
    let row = rows::load(d, k, a);
    strict_test(row, rows::join(row, d, k, n), Tested::Whole(k), a)
}

// sb, dd, cd strict orders.
pub fn rule4_test(desk: &Desk, a: usize) -> Found
    ensures { over desk.now (FindsRule 4) a result }
{
    whole_test(SB, desk.book, desk.n, a)
        .or(whole_test(DD, desk.book, desk.n, a))
        .or(whole_test(CD, desk.book, desk.n, a))
}

// The relation that is to be total by rule 6, 10 or 14.
fn tested_by(rule: u32) -> Tested
    ensures { result ≡ tested_by rule }
{
    match rule {
        6 => Tested::Kept { w: AT_MUTEX, k: SC },
        10 => Tested::Whole(SC),
        _ => Tested::Kept {
            w: AT_ATOMIC,
            k: MO,
        },
    }
}

// The actions that it is to be total on, in the row of a.
fn inside_row(rule: u32, d: &[u64], n: usize, a: usize) -> Row
    ensures { has result ≡ inside_of rule n (held d.now) a }
{
    match rule {
        6 => {
            let mutexes = rows::load(d, WORDS, AT_MUTEX);
            rows::load(d, PLACE, a).only_if(mutexes.contains(a))
        }
        10 => {
            let acts = rows::load(d, WORDS, SC_ACTION);
            acts.only_if(acts.contains(a))
        }
        _ => writes_of_row(d, n, a),
    }
}

// 6: sc kept to one mutex's actions is total on them. 10: sc total on the SC actions. 14: mo kept to one atomic place's actions is total on its writes.
pub fn total_rule_test(rule: u32, d: &[u64], n: usize, a: usize) -> Found
    ensures { FindsTotal n (held d.now) (inside_of rule n (held d.now) a) (relation (held d.now) (tested_by rule)) a result }
{
    total_test(inside_row(rule, d, n, a), tested_by(rule), d, n, a)
}
