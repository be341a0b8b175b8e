// Relations 7 to 17, each worked out by whole rows into its part of the store and from there onto the desk.
#![tactic(auto)]

ghost use Rattle.std.specs.Prelude.{◌≡◌, cond, ◌&&◌, ℕ, ◌+◌, ◌*◌, ◌-◌, ◌<◌, ◌≤◌, eqb, leb, ltb, length, get_or};
ghost use Rattle.rows.specs.Sets.{never, within, before, either, image, converse, Covers};
ghost use Rattle.rows.specs.Numbers.{size, area, has, held};
ghost use Rattle.model.specs.Limits.{store_length, desk_length};
ghost use Rattle.model.specs.Model.{Sb, Vse, vsse, derived, enter, filled};
ghost use Rattle.desk.specs.Notes.{Noted};
ghost use Rattle.desk.specs.Reading.{on};
ghost use Rattle.relations.specs.Bases.{bases};

use desk::Desk;
use model::{
    AT_ATOMIC, CAD, DATA_RACES, DOB, HB, HRS, ITHB, PLAIN, READ, RELEASE, RS, SB, SW,
    UNSEQUENCED_RACES, VSE, VSSE, WORDS, WRITE,
};
use rows::Row;

mod seen;
mod sync;

// Row a of what relation k is made of, to be cut at n.
#[tactic(auto, unfolding(crate::specs::Bases::bases))]
fn base_row(k: u32, desk: &Desk, a: usize) -> Row
    ensures { 7 ≤ k → a < desk.now.n → before (has result) desk.now.n ≡ before (get_or (on desk.now bases) (k - 7) never a) desk.now.n }
{
    match k {
        RS => sync::rs_row(desk, a),
        HRS => desk::hrs_row(desk.book, desk.n, a),
        SW => sync::sw_row(desk, a),
        CAD => sync::cad_step_row(desk, a),
        DOB => sync::dob_row(desk, a),
        ITHB => sync::r_row(desk, a),
        HB => sync::hb_row(desk, a),
        VSE => seen::vse_row(desk, a),
        DATA_RACES => seen::data_races_row(desk, a),
        UNSEQUENCED_RACES => seen::unsequenced_races_row(desk, a),
        _ => Row::empty(),
    }
}

// The actions whose rows of what relation k is made of can have members.
#[tactic(auto, using(crate::specs::Laws::Filled::filling), unfolding(crate::specs::Bases::bases))]
fn filled_rows(k: u32, desk: &Desk) -> Row
    ensures { 7 ≤ k → Covers desk.now.n (get_or (on desk.now bases) (k - 7) never) (has result) }
{
    match k {
        RS | DOB => desk.row(WORDS, RELEASE),
        VSE => desk.row(WORDS, WRITE),
        UNSEQUENCED_RACES => desk.row(WORDS, PLAIN),
        _ => Row::full(),
    }
}

// What relation k is made of into its lent part.
fn fill_rows(part: &mut [u64], k: u32, desk: &Desk)
    requires { (length part.old ≡ area) × (7 ≤ k) }
    ensures { held part.new 0 ≡ within desk.now.n (get_or (on desk.now bases) (k - 7) never) }
{
    rows::fill(
        part,
        filled_rows(k, desk).before(desk.n),
        |a| base_row(k, desk, a).before(desk.n),
    );
}

// The part gets what it leads to after an sb step.
fn fill_after_sb(part: &mut [u64], desk: &Desk)
    requires { length part.old ≡ area }
    ensures { held part.new 0 ≡ within desk.now.n (λ a. either (held part.old 0 a) (image desk.now.n (on desk.now Sb a) (held part.old 0))) }
{
    let mut steps = [0u64; rows::AREA];
    rows::copy(part, 0, &mut steps, 0);
    rows::fill(part, Row::full().before(desk.n), |a| {
        let later = rows::join(desk.row(SB, a), &steps, 0, desk.n);
        rows::load(&steps, 0, a).or(later).before(desk.n)
    });
}

// The columns of vsse into a lent part, with vse turned around: those of reads at atomic places.
fn fill_columns(part: &mut [u64], heads: &[u64], desk: &Desk)
    requires { (length part.old ≡ area) × (held heads.now 0 ≡ within desk.now.n (converse (on desk.now Vse))) }
    ensures { held part.new 0 ≡ within desk.now.n (converse (on desk.now vsse)) }
{
    let reads = desk.row(WORDS, READ).and(desk.row(WORDS, AT_ATOMIC));
    rows::fill(
        part,
        reads.before(desk.n),
        |b| seen::vsse_column(heads, desk, b).before(desk.n),
    );
}

// vsse into its lent part, by columns.
fn fill_vsse(part: &mut [u64], desk: &Desk)
    requires { length part.old ≡ area }
    ensures { held part.new 0 ≡ within desk.now.n (on desk.now vsse) }
{
    let mut heads = [0u64; rows::AREA];
    rows::transpose(&mut heads, desk.book, VSE, desk.n);
    let mut columns = [0u64; rows::AREA];
    fill_columns(&mut columns, &heads, desk);
    rows::transpose(part, &columns, 0, desk.n);
}

// Relation k into its lent part.
fn fill(part: &mut [u64], k: u32, desk: &Desk)
    requires { (length part.old ≡ area) × (7 ≤ k) }
    ensures { held part.new 0 ≡ within desk.now.n (get_or (on desk.now derived) (k - 7) never) }
{
    if k == VSSE {
        fill_vsse(part, desk);
        return;
    }
    fill_rows(part, k, desk);
    match k {
        CAD => rows::close(part, desk.n),
        ITHB => {
            fill_after_sb(part, desk);
            rows::close(part, desk.n)
        }
        _ => {}
    }
}

// Relation k into its part of the store, which is lent on to be filled, and from there onto the desk.
fn derive_one(store: &mut [u64], d: &mut [u64], e: &[u64], k: u32, n: usize)
    requires { (area * k + area ≤ length store.old) × (area * k + area ≤ length d.old) × (n ≤ size) × (7 ≤ k) × Noted n (held d.old) (held e.now) }
    ensures d_after { held d.new ≡ enter n k (get_or (derived n (held d.old)) (k - 7) never) (held d.old) }
    ensures by_index { (j : ℕ) → held store.new j ≡ cond (eqb j k) (held d.new k) (held store.old j) }
{
    let from = rows::AREA * (k as usize);
    let to = from + rows::AREA;
    let desk = Desk {
        book: d,
        notes: e,
        n,
    };
    fill(&mut store[from..to], k, &desk);
    rows::copy(store, k, d, k);
}

// Relations 7 to 17.
pub fn derive(store: &mut [u64], d: &mut [u64], e: &[u64], n: usize)
    requires { (store_length ≤ length store.old) × (length d.old ≡ desk_length) × (n ≤ size) × Noted n (held d.old) (held e.now) }
    ensures d_after { held d.new ≡ filled n (held d.old) }
    ensures by_index { (j : ℕ) → held store.new j ≡ cond (leb 7 j && ltb j 18) (held d.new j) (held store.old j) }
{
    for k in 7..18 {
        derive_one(store, d, e, k, n);
    }
}
