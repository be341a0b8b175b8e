// Rows: sets of action numbers by value, and slices read as relations by number.
#![tactic(auto)]

ghost use Rattle.std.specs.Prelude.{◌≡◌, Bool, true, cond, not, ◌&&◌, ℕ, ◌+◌, ◌*◌, ◌^◌, ◌<◌, ◌≤◌, eqb, leb, ltb, length};
ghost use Rattle.std.specs.Iterator.{at_most};
ghost use Rattle.rows.specs.Sets.{Set, Rel, any, least, count, none, both, either, less, when, single, at, without, before, after, image, never, converse, within, closure, pairs};
ghost use Rattle.rows.specs.Laws.Loops.{marked};
ghost use Rattle.rows.specs.Members.{GivesLeast, Gathers, Fills, members_left};
ghost use Rattle.rows.specs.Laws.Closure.{Round, turned, gains};
ghost use Rattle.rows.specs.Laws.Parts.{RunOf};
ghost use Rattle.rows.specs.Numbers.{bit, rel, width, digit, numbers, wide, size, area, has, ran, whole, held};

// Bits of a number.
pub const WIDTH: usize = 64;

// Numbers of a row.
pub const WIDE: usize = 2;

// Columns of a row, and rows of a part.
pub const SIZE: usize = WIDTH * WIDE;

// Numbers of a part.
pub const AREA: usize = WIDE * SIZE;

// A set of numbers below SIZE: the low number has those below WIDTH.
#[derive(Clone, Copy)]
pub struct Row {
    low: u64,
    high: u64,
}

// The members of a row, lowest first: what `for a in row` goes through.
#[derive(Clone, Copy)]
pub struct Members {
    row: Row,
}

// The members that one number of a row has, lowest first: a loop over each number by itself is quicker than one over the row.
#[derive(Clone, Copy)]
struct Run {
    word: u64,
    index: usize,
}

// Number i of the row of b alone.
fn one(b: usize, i: usize) -> u64
    ensures { result ≡ digit (single b) i }
{
    if b / WIDTH == i {
        1u64 << (b % WIDTH)
    } else {
        0
    }
}

// Number i of the row of all numbers below n.
fn ones(n: usize, i: usize) -> u64
    ensures { result ≡ digit (λ b. ltb b n) i }
{
    if n / WIDTH < i {
        return 0;
    }
    if n / WIDTH == i {
        return (1u64 << (n % WIDTH)) - 1;
    }
    u64::MAX
}

impl Iterator for Run {
    type Item = usize;

    ghost can_next = { λ s. s.index < wide };

    ghost next_gives = { λ s r t. GivesLeast (ran s) r (ran t) };

    ghost remaining = { λ s. at_most (count size (ran s)) };

    fn next(&mut self) -> Option<usize> {
        let word = self.word;
        if word == 0 {
            return None;
        }
        self.word = word & (word - 1);
        Some(WIDTH * self.index + word.trailing_zeros() as usize)
    }
}

impl Iterator for Members {
    type Item = usize;

    ghost next_gives = { λ s r t. GivesLeast (members_left s) r (members_left t) };

    ghost remaining = { λ s. at_most (count size (members_left s)) };

    fn next(&mut self) -> Option<usize> {
        let row = self.row;
        if row.is_empty() {
            return None;
        }
        self.row = row.rest();
        Some(row.lowest())
    }
}

impl IntoIterator for Row {
    type Item = usize;

    type IntoIter = Members;

    ghost into_iter_gives = { λ row it. members_left it ≡ has row };

    fn into_iter(self) -> Members {
        Members { row: self }
    }
}

impl Row {
    // No member.
    pub fn empty() -> Self
        ensures { has result ≡ none }
    {
        Row { low: 0, high: 0 }
    }

    // Every number below SIZE.
    pub fn full() -> Self
        ensures { has result ≡ (λ b. ltb b size) }
    {
        Row {
            low: u64::MAX,
            high: u64::MAX,
        }
    }

    // The bits of a number.
    pub fn of(word: u64) -> Self
        ensures { has result ≡ bit word }
    {
        Row { low: word, high: 0 }
    }

    // The bits of a number of two halves.
    pub fn of_halves(low: u64, high: u64) -> Self
        ensures { has result ≡ bit (high * 2 ^ width + low) }
    {
        Row { low, high }
    }

    // b alone, or no member if it is no number below SIZE.
    pub fn only(b: usize) -> Self
        ensures { has result ≡ before (single b) size }
    {
        Row {
            low: one(b, 0),
            high: one(b, 1),
        }
    }

    // The numbers below n.
    fn below(n: usize) -> Self
        ensures { has result ≡ before (λ b. ltb b n) size }
    {
        Row {
            low: ones(n, 0),
            high: ones(n, 1),
        }
    }

    // Number i, or 0.
    fn number(self, i: usize) -> u64
        ensures { result ≡ numbers self i }
    {
        match i {
            0 => self.low,
            1 => self.high,
            _ => 0,
        }
    }

    // The members of its number i.
    fn run(self, i: usize) -> Run
        ensures { RunOf self i result }
    {
        Run {
            word: self.number(i),
            index: i,
        }
    }

    // Whether b is a member.
    pub fn contains(self, b: usize) -> bool
        ensures { result ≡ has self b }
    {
        (self.number(b / WIDTH) >> (b % WIDTH)) % 2 == 1
    }

    // The members of both.
    pub fn and(self, other: Row) -> Self
        ensures { has result ≡ both (has self) (has other) }
    {
        Row {
            low: self.low & other.low,
            high: self.high & other.high,
        }
    }

    // The members of either.
    pub fn or(self, other: Row) -> Self
        ensures { has result ≡ either (has self) (has other) }
    {
        Row {
            low: self.low | other.low,
            high: self.high | other.high,
        }
    }

    // The members that the other has not.
    pub fn minus(self, other: Row) -> Self
        ensures { has result ≡ less (has self) (has other) }
    {
        Row {
            low: self.low & !other.low,
            high: self.high & !other.high,
        }
    }

    // The members if p holds, and none if not.
    pub fn only_if(self, p: bool) -> Self
        ensures { has result ≡ when p (has self) }
    {
        if p { self } else { Row::empty() }
    }

    // With b, which is left out if it is no number below SIZE.
    pub fn with(self, b: usize) -> Self
        ensures { has result ≡ either (has self) (when (ltb b size) (single b)) }
    {
        self.or(Row::only(b))
    }

    // With b if p holds.
    pub fn with_if(self, b: usize, p: bool) -> Self
        ensures { has result ≡ either (has self) (when p (when (ltb b size) (single b))) }
    {
        if p { self.with(b) } else { self }
    }

    // Without b.
    pub fn without(self, b: usize) -> Self
        ensures { has result ≡ without (has self) b }
    {
        self.minus(Row::only(b))
    }

    // At most b.
    pub fn at(self, b: usize) -> Self
        ensures { has result ≡ at (has self) b }
    {
        self.and(Row::only(b))
    }

    // The members below n.
    pub fn before(self, n: usize) -> Self
        ensures { has result ≡ before (has self) n }
    {
        self.and(Row::below(n))
    }

    // The members above a.
    pub fn after(self, a: usize) -> Self
        ensures { has result ≡ after (has self) a }
    {
        if a < SIZE {
            self.minus(Row::below(a + 1))
        } else {
            Row::empty()
        }
    }

    // Whether there is no member.
    pub fn is_empty(self) -> bool
        ensures { result ≡ not (any size (has self)) }
    {
        (self.low | self.high) == 0
    }

    // Without the lowest member.
    pub fn rest(self) -> Self
        ensures { has result ≡ without (has self) (least size (has self)) }
    {
        if self.low != 0 {
            return Row {
                low: self.low & (self.low - 1),
                ..self
            };
        }
        if self.high != 0 {
            return Row {
                low: 0,
                high: self.high & (self.high - 1),
            };
        }
        self
    }

    // The lowest member, or SIZE.
    pub fn lowest(self) -> usize
        ensures { result ≡ least size (has self) }
    {
        if self.low == 0 {
            return WIDTH + self.high.trailing_zeros() as usize;
        }
        self.low.trailing_zeros() as usize
    }

    // How many members there are.
    pub fn count(self) -> u32
        ensures { result ≡ count size (has self) }
    {
        self.low.count_ones() + self.high.count_ones()
    }
}

// Whether part k is there.
fn has_part(d: &[u64], k: u32) -> bool
    ensures { result ≡ whole d.now k }
{
    AREA * k as usize + AREA <= d.len()
}

// Row a of part k, which is there.
fn stored(d: &[u64], k: u32, a: usize) -> Row
    requires { (a < size) × (area * k + area ≤ length d.now) }
    ensures { has result ≡ held d.now k a }
{
    let i = AREA * k as usize + WIDE * a;
    Row {
        low: d[i],
        high: d[i + 1],
    }
}

// Row a of part k, or an empty row.
pub fn load(d: &[u64], k: u32, a: usize) -> Row
    ensures { has result ≡ held d.now k a }
{
    if SIZE <= a || !has_part(d, k) {
        return Row::empty();
    }
    stored(d, k, a)
}

// Row a of part k becomes r.
pub fn put(d: &mut [u64], k: u32, a: usize, r: Row)
    requires { (a < size) × (area * k + area ≤ length d.old) }
    ensures { (j x : ℕ) → held d.new j x ≡ cond (eqb j k && eqb x a) (has r) (held d.old j x) }
{
    let i = AREA * k as usize + WIDE * a;
    d[i] = r.low;
    d[i + 1] = r.high;
}

// Part k of `to` becomes part i of `from`, number by number.
pub fn copy(from: &[u64], i: u32, to: &mut [u64], k: u32)
    requires { (area * i + area ≤ length from.now) × (area * k + area ≤ length to.old) }
    ensures { (j : ℕ) → held to.new j ≡ cond (eqb j k) (held from.now i) (held to.old j) }
{
    let start = AREA * i as usize;
    let begin = AREA * k as usize;
    to[begin..begin + AREA].copy_from_slice(&from[start..start + AREA]);
}

// The numbers below n at which it holds.
pub fn select<F: Fn(usize) -> bool>(n: usize, holds: F) -> Row
    requires few { n ≤ size }
    requires callable { (b : ℕ) → b < n → F.pre holds b }
    ensures { (s : Set) → ((b : ℕ) (r : Bool) → b < n → F.post holds b r → r ≡ s b) → has result ≡ before s n }
{
    let mut row = Row::empty();
    for b in 0..n {
        row = row.with_if(b, holds(b));
    }
    row
}

// What the step gives for the members of a run, together.
fn gather_run<F: Fn(usize) -> Row>(these: Run, step: F) -> Row
    requires index { these.index < wide }
    requires callable { (a : ℕ) → a < size → F.pre step a }
    ensures { Gathers (F.post step) (ran these) result }
{
    let mut all = Row::empty();
    for a in these {
        all = all.or(step(a));
    }
    all
}

// What the step gives for the members of a row, together.
fn gather<F: Fn(usize) -> Row>(from: Row, step: F) -> Row
    requires { (a : ℕ) → a < size → F.pre step a }
    ensures { Gathers (F.post step) (has from) result }
{
    gather_run(from.run(0), &step).or(gather_run(from.run(1), &step))
}

// What part k leads to from the members below n.
pub fn join(from: Row, d: &[u64], k: u32, n: usize) -> Row
    ensures { has result ≡ image n (has from) (held d.now k) }
{
    if !has_part(d, k) {
        return Row::empty();
    }
    gather(from.before(n), |c| stored(d, k, c))
}

// What part k of d and part l of e both lead to from one of the members below n.
pub fn join_in(from: Row, d: &[u64], k: u32, e: &[u64], l: u32, n: usize) -> Row
    ensures { has result ≡ image n (has from) (λ c. both (held d.now k c) (held e.now l c)) }
{
    if !has_part(d, k) || !has_part(e, l) {
        return Row::empty();
    }
    gather(from.before(n), |c| stored(d, k, c).and(stored(e, l, c)))
}

// What part k leads to from the members below n, but for each to itself.
pub fn join_others(from: Row, d: &[u64], k: u32, n: usize) -> Row
    ensures { has result ≡ image n (has from) (λ c. without (held d.now k c) c) }
{
    if !has_part(d, k) {
        return Row::empty();
    }
    gather(from.before(n), |c| stored(d, k, c).without(c))
}

// The members from which part k leads to one of these.
pub fn leading(from: Row, d: &[u64], k: u32, these: Row) -> Row
    ensures { has result ≡ both (has from) (λ c. any size (both (held d.now k c) (has these))) }
{
    if !has_part(d, k) {
        return Row::empty();
    }
    gather(from, |c| {
        let leads = !stored(d, k, c).and(these).is_empty();
        Row::only(c).only_if(leads)
    })
}

// The members that part k leads from to a.
pub fn column(from: Row, d: &[u64], k: u32, a: usize) -> Row
    ensures { has result ≡ both (has from) (converse (held d.now k) a) }
{
    leading(from, d, k, Row::only(a))
}

// A part becomes empty.
pub fn clear(part: &mut [u64])
    requires { length part.old ≡ area }
    ensures { held part.new 0 ≡ never }
{
    part.fill(0);
}

// The part becomes what `row` gives for each of these; its other rows become empty.
// One loop over the row, and not one over each of its numbers: the rows are long work, and two copies of it are slower.
pub fn fill<F: Fn(usize) -> Row>(part: &mut [u64], these: Row, row: F)
    requires long { length part.old ≡ area }
    requires callable { (a : ℕ) → a < size → F.pre row a }
    ensures { Fills (F.post row) (has these) (held part.new 0) }
{
    clear(part);
    for a in these {
        put(part, 0, a, row(a));
    }
}

// The rows of the members of a run get b.
fn mark_run(part: &mut [u64], these: Run, b: usize)
    requires { (these.index < wide) × (b < size) × (length part.old ≡ area) }
    ensures { held part.new 0 ≡ marked (held part.old 0) (ran these) b }
{
    for a in these {
        put(part, 0, a, stored(part, 0, a).with(b));
    }
}

// The rows of the members get b.
fn mark(part: &mut [u64], members: Row, b: usize)
    requires { (b < size) × (length part.old ≡ area) }
    ensures { held part.new 0 ≡ marked (held part.old 0) (has members) b }
{
    mark_run(part, members.run(0), b);
    mark_run(part, members.run(1), b);
}

// The part becomes part k of d turned around, between the numbers below n.
pub fn transpose(part: &mut [u64], d: &[u64], k: u32, n: usize)
    requires { (n ≤ size) × (length part.old ≡ area) }
    ensures { held part.new 0 ≡ within n (converse (held d.now k)) }
{
    clear(part);
    for b in 0..n {
        mark(part, load(d, k, b).before(n), b);
    }
}

// The part becomes the first n numbers of a list turned around: row w has those with bit w.
pub fn turn(part: &mut [u64], list: &[u64], n: usize)
    requires { (n ≤ size) × (n ≤ length list.now) × (length part.old ≡ area) }
    ensures { held part.new 0 ≡ (λ w. before (λ a. rel list.now a w) n) }
{
    clear(part);
    for (a, word) in list[..n].iter().enumerate() {
        mark(part, Row::of(*word), a);
    }
}

// Row a gets the rows of its members below n; whether that is more than it had.
fn close_row(part: &mut [u64], a: usize, n: usize) -> bool
    requires { (a < size) × (length part.old ≡ area) }
    ensures value { result ≡ any size (gains n (held part.old 0) a) }
    ensures by_index { (x : ℕ) → held part.new 0 x ≡ turned n (held part.old 0) a x }
{
    let row = stored(part, 0, a);
    if row.is_empty() {
        return false;
    }
    let more = join(row, part, 0, n);
    put(part, 0, a, row.or(more));
    !more.minus(row).is_empty()
}

// Each row, from the last to the first, gets the rows of its members below n; whether that is more than there was.
fn close_round(part: &mut [u64], n: usize) -> bool
    requires { length part.old ≡ area }
    ensures { Round n (held part.old 0) (held part.new 0) 0 result }
{
    let mut more = false;
    for a in (0..SIZE).rev() {
        more |= close_row(part, a, n);
    }
    more
}

// The part becomes its transitive closure over the numbers below n: in rounds, until one adds nothing.
pub fn close(part: &mut [u64], n: usize)
    requires { (n ≤ size) × (length part.old ≡ area) }
    ensures { held part.new 0 ≡ closure n (held part.old 0) }
{
    for _ in 0..n {
        if !close_round(part, n) {
            return;
        }
    }
}

// How many pairs a<b below n are in part k.
pub fn pairs(d: &[u64], k: u32, n: usize) -> u32
    requires { n ≤ size }
    ensures { result ≡ pairs n (held d.now k) }
{
    (0..n)
        .map(|a| load(d, k, a).after(a).before(n).count())
        .sum()
}
