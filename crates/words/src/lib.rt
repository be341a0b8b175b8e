// The words of the model: from actions and place bytes to rows, laid on the desk beside the given relations.
#![tactic(auto)]

ghost use Rattle.std.specs.Prelude.{not, cond, List, ◌≡◌, ℕ, ◌+◌, ◌*◌, ◌<◌, ◌≤◌, eqb, ltb, length, get_or};
ghost use Rattle.rows.specs.Sets.{never, least, when, single, before, image, within};
ghost use Rattle.rows.specs.Numbers.{bit, width, size, area, has, held};
ghost use Rattle.model.specs.Limits.{store_length};
ghost use Rattle.model.specs.declared.Action.{Action};
ghost use Rattle.model.specs.Actions.{no_action};
ghost use Rattle.model.specs.Words.{word, book_from};
ghost use Rattle.model.specs.Laws.Filled.{unfilled};
ghost use Rattle.words.specs.Sheet.{kind_index, place_words, sheet_length, note, noted, Small, Sheet, bit_rows, at_place, meets, same_written, same_number};

use model::limits::DESK_LENGTH;
use model::{AT_MUTEX, Action, ActionKind, FENCE, PLACE, THREAD, VALUE, WORDS};
use rows::Row;

// The parts of the sheet, one number of each to an action: its words, its place, its thread; then the value that it reads and the value that it writes.
const SHEET_WORDS: usize = 0;

const SHEET_PLACE: usize = 1;

const SHEET_THREAD: usize = 2;

const SHEET_READ: usize = 3;

const SHEET_WRITTEN: usize = 4;

const READ_AT: usize = rows::SIZE * SHEET_READ;

const WRITTEN_AT: usize = rows::SIZE * SHEET_WRITTEN;

// Numbers of the sheet.
pub const SHEET_LENGTH: usize = rows::SIZE * 5;

// The words of each kind, bit w for word w: lock, unlock, load, store, and six orders each of atomic load, atomic store, read-modify-write, fence.
const KIND_WORDS: [u64; 28] = [
    0x00620, 0x00a40, 0x00009, 0x0000a, 0xd0005, 0x51005, 0x50405, 0x90005, 0x10405, 0xd0705,
    0xe0006, 0x60006, 0x60006, 0xa0806, 0x20806, 0xe0b06, 0xc0087, 0x41087, 0x40487, 0x80887,
    0x00c87, 0xc0f87, 0xc0010, 0x40410, 0x40410, 0x80810, 0x00c10, 0xc0f10,
];

// Where the table has the words of a kind.
fn kind_index(what: ActionKind) -> usize
    ensures { (result ≡ kind_index what) × (result < 28) }
{
    match what {
        ActionKind::Lock => 0,
        ActionKind::Unlock => 1,
        ActionKind::Load => 2,
        ActionKind::Store => 3,
        ActionKind::AtomicLoad(m) => 3 + m.number() as usize,
        ActionKind::AtomicStore(m) => 9 + m.number() as usize,
        ActionKind::ReadModifyWrite(m) => 15 + m.number() as usize,
        ActionKind::Fence(m) => 21 + m.number() as usize,
    }
}

// The words that an action has by its kind and order.
fn kind_words(x: Action) -> u64
    ensures { bit result ≡ (λ w. word w x 3) }
{
    KIND_WORDS[kind_index(x.what)]
}

// Bit b alone, or no bit if a number has no bit b.
fn one_bit(b: usize) -> u64
    ensures { bit result ≡ when (ltb b width) (single b) }
{
    if b < rows::WIDTH { 1 << b } else { 0 }
}

// The word that an action has by the kind of its place.
fn place_words(q: u8) -> u64
    ensures { bit result ≡ place_words q }
{
    if q < 3 {
        one_bit(AT_MUTEX + q as usize)
    } else {
        0
    }
}

// The words of an action at a place of kind q.
fn words_of(x: Action, q: u8) -> u64
    ensures { bit result ≡ (λ w. word w x q) }
{
    place_words(q) | kind_words(x)
}

// The kind of place p, 3 if it is no place.
pub fn place_kind(places: &[u8], p: u16) -> u8
    ensures { result ≡ get_or places.now p 3 }
{
    places.get(p as usize).copied().unwrap_or(3)
}

// The place p of an action that has these words, as one bit; a fence has none.
fn place_bit(words: u64, p: u16) -> u64
    ensures { bit result ≡ when (not (bit words 4)) (when (ltb p width) (single p)) }
{
    if (words >> FENCE) % 2 == 1 {
        0
    } else {
        one_bit(p as usize)
    }
}

// Number a of part k becomes v.
fn put_note(sheet: &mut [u64; SHEET_LENGTH], k: usize, a: usize, v: u64)
    requires { (k < 5) × (a < size) }
    ensures { (j b : ℕ) → b < size → note sheet.new j b ≡ noted k a v (note sheet.old) j b }
{
    sheet[rows::SIZE * k + a] = v;
}

// Notes action a on the sheet, at a place of kind q.
pub fn enter(sheet: &mut [u64; SHEET_LENGTH], a: usize, x: Action, q: u8)
    requires { a < size }
    ensures long { length sheet.new ≡ sheet_length }
    ensures noted { (acts : List Action) (places : List ℕ) → Sheet a acts places sheet.old → get_or acts a no_action ≡ x → get_or places x.place 3 ≡ q → Small x → Sheet (a + 1) acts places sheet.new }
{
    let words = words_of(x, q);
    put_note(sheet, SHEET_WORDS, a, words);
    put_note(sheet, SHEET_PLACE, a, place_bit(words, x.place));
    put_note(sheet, SHEET_THREAD, a, one_bit(x.thread as usize));
    put_note(sheet, SHEET_READ, a, x.read as u64);
    put_note(sheet, SHEET_WRITTEN, a, x.written as u64);
}

// The given relations, 0 to 6.
fn lay_given(desk: &mut [u64; DESK_LENGTH], store: &[u64])
    requires { store_length ≤ length store.now }
    ensures { (j : ℕ) → held desk.new j ≡ cond (ltb j 7) (held store.now j) (held desk.old j) }
{
    for k in 0..7 {
        rows::copy(store, k, desk, k);
    }
}

// Part k of the sheet turned around: row p gets the actions whose number has bit p.
fn turn_notes(turned: &mut [u64], sheet: &[u64; SHEET_LENGTH], k: usize, n: usize)
    requires { (n ≤ size) × (k < 5) × (length turned.old ≡ area) }
    ensures { held turned.new 0 ≡ bit_rows n sheet.now k }
{
    let from = rows::SIZE * k;
    let to = from + rows::SIZE;
    rows::turn(turned, &sheet[from..to], n);
}

// The actions at each place: row q gets those at place q.
pub fn lay_at(at: &mut [u64], sheet: &[u64; SHEET_LENGTH], n: usize)
    requires { (n ≤ size) × (length at.old ≡ area) }
    ensures { (acts : List Action) (places : List ℕ) → Sheet n acts places sheet.now → held at.new 0 ≡ at_place n acts }
{
    turn_notes(at, sheet, SHEET_PLACE, n);
}

// The actions of each word.
fn lay_words(desk: &mut [u64; DESK_LENGTH], sheet: &[u64; SHEET_LENGTH], n: usize)
    requires { n ≤ size }
    ensures { (j : ℕ) → held desk.new j ≡ cond (eqb j 18) (bit_rows n sheet.now 0) (held desk.old j) }
{
    let mut turned = [0u64; rows::AREA];
    turn_notes(&mut turned, sheet, SHEET_WORDS, n);
    rows::copy(&turned, 0, desk, WORDS);
}

// Part k of the desk becomes empty.
fn clear_part(desk: &mut [u64], k: u32)
    requires { area * k + area ≤ length desk.old }
    ensures { (j : ℕ) → held desk.new j ≡ cond (eqb j k) never (held desk.old j) }
{
    let from = rows::AREA * (k as usize);
    let to = from + rows::AREA;
    rows::clear(&mut desk[from..to]);
}

// The bits of each number of part i of the sheet, followed through `turned`, become a row of part k.
fn lay_through(
    desk: &mut [u64],
    k: u32,
    sheet: &[u64; SHEET_LENGTH],
    i: usize,
    turned: &[u64],
    n: usize,
)
    requires { (n ≤ size) × (i < 5) × (area * k + area ≤ length desk.old) }
    ensures { (j : ℕ) → held desk.new j ≡ cond (eqb j k) (λ a. when (ltb a n) (image size (bit (note sheet.now i a)) (held turned.now 0))) (held desk.old j) }
{
    clear_part(desk, k);
    for a in 0..n {
        let from = Row::of(sheet[rows::SIZE * i + a]);
        rows::put(desk, k, a, rows::join(from, turned, 0, rows::SIZE));
    }
}

// The actions whose numbers in part i of the sheet have a bit in common: of one place, or of one thread.
fn lay_meets(desk: &mut [u64], k: u32, sheet: &[u64; SHEET_LENGTH], i: usize, n: usize)
    requires { (n ≤ size) × (i < 5) × (area * k + area ≤ length desk.old) }
    ensures { (j : ℕ) → held desk.new j ≡ cond (eqb j k) (within n (meets sheet.now i)) (held desk.old j) }
{
    let mut turned = [0u64; rows::AREA];
    turn_notes(&mut turned, sheet, i, n);
    lay_through(desk, k, sheet, i, &turned, n);
}

// The first action that writes the number that a writes.
fn first_writer(sheet: &[u64; SHEET_LENGTH], a: usize) -> usize
    requires { a < size }
    ensures { result ≡ least a (same_written sheet.now a) }
{
    let written = sheet[WRITTEN_AT + a];
    for b in 0..a {
        if written == sheet[WRITTEN_AT + b] {
            return b;
        }
    }
    a
}

// The actions that read the number that a writes.
fn readers(sheet: &[u64; SHEET_LENGTH], n: usize, a: usize) -> Row
    requires { (n ≤ size) × (a < size) }
    ensures { has result ≡ before (same_number sheet.now a) n }
{
    let written = sheet[WRITTEN_AT + a];
    rows::select(n, |b| written == sheet[READ_AT + b])
}

// Row a of value written = value read, where the rows before it are on the desk: that of the first that writes the same.
fn value_row(desk: &[u64], sheet: &[u64; SHEET_LENGTH], n: usize, a: usize) -> Row
    requires { (n ≤ size) × (a < size) }
    ensures { ((x : ℕ) → x < a → held desk.now 21 x ≡ before (same_number sheet.now x) n) → has result ≡ before (same_number sheet.now a) n }
{
    let first = first_writer(sheet, a);
    if first < a {
        return rows::load(desk, VALUE, first);
    }
    readers(sheet, n, a)
}

// Value written = value read.
fn lay_values(desk: &mut [u64; DESK_LENGTH], sheet: &[u64; SHEET_LENGTH], n: usize)
    requires { n ≤ size }
    ensures { (j : ℕ) → held desk.new j ≡ cond (eqb j 21) (within n (same_number sheet.now)) (held desk.old j) }
{
    clear_part(desk, VALUE);
    for a in 0..n {
        let row = value_row(desk, sheet, n, a);
        rows::put(desk, VALUE, a, row);
    }
}

// Lays the book of the sheet's n actions on the desk, with relations 0 to 6 of the store; relations 7 to 17 stay as they were.
pub fn lay(desk: &mut [u64; DESK_LENGTH], store: &[u64], sheet: &[u64; SHEET_LENGTH], n: usize)
    requires { (n ≤ size) × (store_length ≤ length store.now) }
    ensures { (acts : List Action) (places : List ℕ) → Sheet n acts places sheet.now → held desk.new ≡ unfilled (book_from n acts places (held store.now)) (held desk.old) }
{
    lay_given(desk, store);
    lay_words(desk, sheet, n);
    lay_meets(desk, PLACE, sheet, SHEET_PLACE, n);
    lay_meets(desk, THREAD, sheet, SHEET_THREAD, n);
    lay_values(desk, sheet, n);
}
