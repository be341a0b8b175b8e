// The desk: the book that relations and rules read, laid out in parts of a slice; and the notes, worked out once beside it.
#![tactic(auto)]

ghost use Rattle.std.specs.Prelude.{◌≡◌, not, ◌&&◌, cond, ℕ, ◌+◌, ◌*◌, ◌≤◌, eqb, ltb, length, get_or};
ghost use Rattle.rows.specs.Sets.{never, within, before, both};
ghost use Rattle.rows.specs.Numbers.{size, area, has, held};
ghost use Rattle.model.specs.Model.{write, atomic, hrs, sc_fence};
ghost use Rattle.desk.specs.Kept.{kept};
ghost use Rattle.desk.specs.Clashes.{clash, unsequenced_clash};
ghost use Rattle.desk.specs.Notes.{heard, late, sc_fence_sb, sb_fence_sc, handover, sb_fences_sb, notes, notes_length, Noted};

use model::{
    AT_ATOMIC, AT_MUTEX, ATOMIC, FENCE, MO, PLACE, RF, RMW, SB, SC, SEQ_CST, THREAD, WORDS, WRITE,
};
use rows::Row;

// The notes.
pub const HEARD: u32 = 0;

pub const FED: u32 = 1;

pub const LATE: u32 = 2;

pub const SC_FENCE_SB: u32 = 3;

pub const SB_FENCE_SC: u32 = 4;

pub const HANDOVER: u32 = 5;

pub const SB_FENCES_SB: u32 = 6;

const NOTES: u32 = 7;

// Numbers that the notes fill.
pub const NOTES_LENGTH: usize = rows::AREA * (NOTES as usize);

// The desk as relations and rules read it: the book, the notes beside it, and how many actions there are.
#[derive(Clone, Copy)]
pub struct Desk<'a> {
    pub book: &'a [u64],
    pub notes: &'a [u64],
    pub n: usize,
    pub ghost few: { n ≤ size },
    pub ghost noted: { Noted n (held book.now) (held notes.now) },
}

impl<'a> Desk<'a> {
    ghost use Rattle.rows.specs.Sets.{image};

    // Row a of relation k.
    pub fn row(&self, k: u32, a: usize) -> Row
        ensures { has result ≡ held self.now.book.now k a }
    {
        rows::load(self.book, k, a)
    }

    // Row a of note j.
    pub fn note(&self, j: u32, a: usize) -> Row
        ensures { has result ≡ held self.now.notes.now j a }
    {
        rows::load(self.notes, j, a)
    }

    // What relation k leads to from these.
    pub fn join(&self, these: Row, k: u32) -> Row
        ensures { has result ≡ image self.now.n (has these) (held self.now.book.now k) }
    {
        rows::join(these, self.book, k, self.n)
    }
}

// Row a of hrs: from a, as far as mo goes on in a's thread or by RMWs.
pub fn hrs_row(d: &[u64], n: usize, a: usize) -> Row
    ensures { has result ≡ hrs n (held d.now) a }
{
    let places = rows::load(d, WORDS, AT_ATOMIC);
    let mo = rows::load(d, MO, a);
    let element = rows::load(d, THREAD, a).or(rows::load(d, WORDS, RMW));
    let cut = rows::join(mo.minus(element), d, MO, n);
    mo.and(element).minus(cut).and(places).or(places.at(a))
}

// Row a of relation k, kept to one place of the kind w.
pub fn kept_row(d: &[u64], w: usize, k: u32, a: usize) -> Row
    ensures { has result ≡ kept (held d.now) w k a }
{
    let here = rows::load(d, WORDS, w).contains(a);
    rows::load(d, PLACE, a)
        .only_if(here)
        .and(rows::load(d, k, a))
}

// The actions of the place of a with a write among the two.
pub fn clash_row(d: &[u64], n: usize, a: usize) -> Row
    ensures { has result ≡ clash n (held d.now) a }
{
    let writes = rows::load(d, WORDS, WRITE);
    let place = rows::load(d, PLACE, a);
    place.and(writes).or(place.only_if(writes.contains(a)))
}

// Of these, the ones of the thread and place of a, with a write among the two and no sb either way.
pub fn unsequenced_row(d: &[u64], n: usize, a: usize, these: Row) -> Row
    ensures { has result ≡ both (has these) (unsequenced_clash n (held d.now) a) }
{
    let apart = clash_row(d, n, a)
        .and(rows::load(d, THREAD, a))
        .and(these)
        .minus(rows::load(d, SB, a));
    apart.minus(rows::column(apart, d, SB, a))
}

fn heard_row(d: &[u64], n: usize, a: usize) -> Row
    ensures { has result ≡ heard n (held d.now) a }
{
    rows::join(hrs_row(d, n, a), d, RF, n)
}

// Every action but a.
fn others_row(a: usize) -> Row
    ensures { has result ≡ (λ b. ltb b size && not (eqb b a)) }
{
    Row::full().without(a)
}

fn late_row(d: &[u64], n: usize, a: usize) -> Row
    ensures { has result ≡ (λ b. ltb b size && late n (held d.now) a b) }
{
    others_row(a).minus(rows::load(d, MO, a))
}

// The atomic writes.
pub fn atomic_writes(d: &[u64], n: usize) -> Row
    ensures { has result ≡ both (atomic n (held d.now)) (write n (held d.now)) }
{
    rows::load(d, WORDS, ATOMIC).and(rows::load(d, WORDS, WRITE))
}

// The seq_cst fences.
fn sc_fences(d: &[u64], n: usize) -> Row
    ensures { has result ≡ sc_fence n (held d.now) }
{
    rows::load(d, WORDS, FENCE).and(rows::load(d, WORDS, SEQ_CST))
}

fn sc_fence_sb_row(d: &[u64], n: usize, a: usize) -> Row
    ensures { has result ≡ sc_fence_sb n (held d.now) a }
{
    rows::join(rows::load(d, SC, a).and(sc_fences(d, n)), d, SB, n)
}

fn sb_fence_sc_row(d: &[u64], n: usize, a: usize) -> Row
    ensures { has result ≡ sb_fence_sc n (held d.now) a }
{
    rows::join(rows::load(d, SB, a).and(sc_fences(d, n)), d, SC, n)
}

fn handover_row(d: &[u64], n: usize, a: usize) -> Row
    ensures { has result ≡ handover n (held d.now) a }
{
    let turns = kept_row(d, AT_MUTEX, SC, a);
    let middle = turns.and(rows::load(d, WORDS, AT_MUTEX));
    turns.minus(rows::join_in(middle, d, PLACE, d, SC, n))
}

// Row a of sb;(sc between these fences);sb.
pub fn sb_fences_sb_row(d: &[u64], fences: Row, n: usize, a: usize) -> Row
    ensures { has result ≡ sb_fences_sb n (held d.now) (has fences) a }
{
    let f = rows::load(d, SB, a).and(fences);
    let g = rows::join(f, d, SC, n).and(fences);
    rows::join(g, d, SB, n)
}

// Row a of note j, which is not FED, to be cut at n.
#[tactic(auto, unfolding(crate::specs::Notes::notes))]
fn note_row(j: u32, d: &[u64], n: usize, a: usize) -> Row
    ensures { n ≤ size → (j ≡ 1 → ⊥) → before (has result) n ≡ before (get_or (notes n (held d.now)) j never a) n }
{
    match j {
        HEARD => heard_row(d, n, a),
        LATE => late_row(d, n, a),
        SC_FENCE_SB => sc_fence_sb_row(d, n, a),
        SB_FENCE_SC => sb_fence_sc_row(d, n, a),
        HANDOVER => handover_row(d, n, a),
        SB_FENCES_SB => sb_fences_sb_row(d, sc_fences(d, n), n, a),
        _ => Row::empty(),
    }
}

// Note j, which is not FED, into its lent part, row by row.
fn fill_rows(part: &mut [u64], j: u32, d: &[u64], n: usize)
    requires { (length part.old ≡ area) × (n ≤ size) × (j ≡ 1 → ⊥) }
    ensures { held part.new 0 ≡ within n (get_or (notes n (held d.now)) j never) }
{
    rows::fill(
        part,
        Row::full().before(n),
        |a| note_row(j, d, n, a).before(n),
    );
}

// Note j into its lent part.
fn fill_note(part: &mut [u64], j: u32, d: &[u64], n: usize)
    requires { (length part.old ≡ area) × (n ≤ size) }
    ensures { held part.new 0 ≡ within n (get_or (notes n (held d.now)) j never) }
{
    if j == FED {
        rows::transpose(part, d, RF, n);
    } else {
        fill_rows(part, j, d, n);
    }
}

// Note j of the desk.
fn take_note(e: &mut [u64], j: u32, d: &[u64], n: usize)
    requires { (area * j + area ≤ length e.old) × (n ≤ size) }
    ensures { (i : ℕ) → held e.new i ≡ cond (eqb i j) (within n (get_or (notes n (held d.now)) j never)) (held e.old i) }
{
    let from = rows::AREA * (j as usize);
    let to = from + rows::AREA;
    fill_note(&mut e[from..to], j, d, n);
}

// The notes of the desk.
pub fn take_notes(e: &mut [u64], d: &[u64], n: usize)
    requires { (length e.old ≡ notes_length) × (n ≤ size) }
    ensures { Noted n (held d.now) (held e.new) }
{
    for j in 0..NOTES {
        take_note(e, j, d, n);
    }
}
