// Relations 14 to 17: visible side effects, their sequences, and the races, each by whole rows.
ghost use Rattle.std.specs.Prelude.{true, ◌≡◌, ◌<◌};
ghost use Rattle.rows.specs.Sets.{both, within, converse};
ghost use Rattle.rows.specs.Numbers.{has, held};
ghost use Rattle.model.specs.Model.{Vse, read, at_atomic, vse, vsse, data_races, unsequenced_races};
ghost use Rattle.desk.specs.Reading.{on};
ghost use Rattle.relations.specs.Bases.{visible};

use desk::Desk;
use model::{ATOMIC, HB, MO, PLACE, PLAIN, READ, THREAD, WORDS, WRITE};
use rows::Row;

// a hb b, a write, b read, same place, no other write of that place between.
pub fn vse_row(desk: &Desk, a: usize) -> Row
    ensures { has result ≡ on desk.now vse a }
{
    let writes = desk.row(WORDS, WRITE);
    let there = desk
        .row(HB, a)
        .and(desk.row(PLACE, a))
        .only_if(writes.contains(a));
    let later = rows::join_others(there.and(writes).without(a), desk.book, HB, desk.n);
    there.and(desk.row(WORDS, READ)).minus(later)
}

// The writes after v that read b may see too.
fn visible_row(desk: &Desk, b: usize, v: usize) -> Row
    ensures { has result ≡ on desk.now visible b v }
{
    let mo = desk.row(MO, v);
    let hb = desk.row(HB, b);
    mo.minus(hb).minus(desk.join(mo.and(hb), MO))
}

// The writes in the visible sequences of side effects of b, a read at an atomic place.
pub fn vsse_column(heads: &[u64], desk: &Desk, b: usize) -> Row
    ensures { b < desk.now.n → held heads.now 0 ≡ within desk.now.n (converse (on desk.now Vse)) → both (on desk.now read) (on desk.now at_atomic) b ≡ true → has result ≡ converse (on desk.now vsse) b }
{
    let first = rows::load(heads, 0, b);
    let mut all = first;
    for v in first {
        all = all.or(visible_row(desk, b, v));
    }
    all
}

// Different threads, same place, one a write, not both atomic actions, no hb either way.
pub fn data_races_row(desk: &Desk, a: usize) -> Row
    ensures { has result ≡ on desk.now data_races a }
{
    let atomics = desk.row(WORDS, ATOMIC);
    let apart = desk::clash_row(desk.book, desk.n, a)
        .minus(desk.row(THREAD, a))
        .minus(atomics.only_if(atomics.contains(a)))
        .minus(desk.row(HB, a));
    apart.minus(rows::column(apart, desk.book, HB, a))
}

// Two different plain accesses, same thread and place, one a write, no sb either way.
pub fn unsequenced_races_row(desk: &Desk, a: usize) -> Row
    ensures { has result ≡ on desk.now unsequenced_races a }
{
    let plain = desk.row(WORDS, PLAIN);
    let others = plain.without(a).only_if(plain.contains(a));
    desk::unsequenced_row(desk.book, desk.n, a, others)
}
