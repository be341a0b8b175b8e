// Rules 27 to 36 of edition 2, each for one pair, under the sentence of request Q-6: whether it offends there. What a sentence calls w' and r' is v and s in the code.
ghost use Rattle.std.specs.Prelude.{◌≡◌, ◌<◌, ◌≤◌};
ghost use Rattle.rows.specs.Numbers.{size};
ghost use Rattle.model.specs.Model.{differ, load, rule27, rule28, rule29, rule30, rule31, rule32, rule33, rule34, rule35, rule36};
ghost use Rattle.slow.specs.Searches.{overwritten};
ghost use Rattle.table.specs.Reading.{on};

use crate::offences::{reached, rule23};
use crate::orders::{immediate, joined};
use model::{
    AT_ATOMIC, AT_PLAIN, ATOMIC_LOAD, HB, MO, PLACE, PLAIN, READ, RF, RMW, SC, SEQ_CST, VSE, WRITE,
};
use table::Table;
use table::walk::comes_back;

// Exactly one of the two.
fn differ(p: bool, q: bool) -> bool
    ensures { result ≡ differ p q }
{
    (p & !q) | (!p & q)
}

// A load (3 or 6).
fn load(t: Table, b: usize) -> bool
    ensures { result ≡ on t.entry load b }
{
    t.is(ATOMIC_LOAD, b) | (t.is(PLAIN, b) & t.is(READ, b))
}

// 27. hb is acyclic: a cycle of one or more hb steps offends at each a on it.
pub fn rule27(t: Table, a: usize, b: usize) -> bool
    requires { (a < t.n) × (t.n ≤ size) }
    ensures { result ≡ on t.entry rule27 a b }
{
    if b != a {
        return false;
    }
    comes_back(t.numbers, HB, t.n, a)
}

// 28. A load (3 or 6) has a source exactly if it has a vse.
pub fn rule28(t: Table, a: usize, b: usize) -> bool
    ensures { result ≡ on t.entry rule28 a b }
{
    if b != a {
        return false;
    }
    load(t, b) & differ(reached(t, RF, b), reached(t, VSE, b))
}

// 29. At a non-atomic place the source is a vse.
pub fn rule29(t: Table, w: usize, r: usize) -> bool
    ensures { result ≡ on t.entry rule29 w r }
{
    t.edge(RF, w, r) & t.is(AT_PLAIN, r) & !t.edge(VSE, w, r)
}

// 30. At an atomic place the source is not hb-later than the read.
pub fn rule30(t: Table, w: usize, r: usize) -> bool
    ensures { result ≡ on t.entry rule30 w r }
{
    t.edge(RF, w, r) & t.is(AT_ATOMIC, r) & t.edge(HB, r, w)
}

// 31. An RMW reads from w exactly if w is its immediate mo predecessor. Offends at (w,RMW).
pub fn rule31(t: Table, w: usize, b: usize) -> bool
    ensures { result ≡ on t.entry rule31 w b }
{
    t.is(RMW, b) & differ(t.edge(RF, w, b), immediate(t, MO, w, b))
}

// Some write v of r's place with w hb v and v sc r.
fn overwritten(t: Table, w: usize, r: usize) -> bool
    ensures { result ≡ on t.entry overwritten w r }
{
    for v in 0..t.n {
        if t.is(WRITE, v) & t.edge(PLACE, v, r) & t.edge(HB, w, v) & t.edge(SC, v, r) {
            return true;
        }
    }
    false
}

// 32. A seq_cst read of a seq_cst write keeps rule 23, and one of any other write w has no write w' of that place with w hb w' and w' sc the read.
pub fn rule32(t: Table, w: usize, r: usize) -> bool
    ensures { result ≡ on t.entry rule32 w r }
{
    rule23(t, w, r)
        | (t.edge(RF, w, r) & t.is(SEQ_CST, r) & !t.is(SEQ_CST, w) & overwritten(t, w, r))
}

// 33. Forbidden: w hb w' and w' mo w. Offends at (w,w').
pub fn rule33(t: Table, w: usize, v: usize) -> bool
    ensures { result ≡ on t.entry rule33 w v }
{
    t.edge(HB, w, v) & t.edge(MO, v, w)
}

// 34. Forbidden: w' mo w, w hb r, w' rf r.
pub fn rule34(t: Table, v: usize, r: usize) -> bool
    ensures { result ≡ on t.entry rule34 v r }
{
    joined(t, MO, HB, v, r) & t.edge(RF, v, r)
}

// 35. Forbidden: r hb w, w mo w', w' rf r.
pub fn rule35(t: Table, v: usize, r: usize) -> bool
    ensures { result ≡ on t.entry rule35 v r }
{
    joined(t, HB, MO, r, v) & t.edge(RF, v, r)
}

// 36. Forbidden: w rf r, w' mo w, r hb r', w' rf r'. Offends at (r,r').
pub fn rule36(t: Table, r: usize, s: usize) -> bool
    ensures { result ≡ on t.entry rule36 r s }
{
    if !t.edge(HB, r, s) {
        return false;
    }
    for w in 0..t.n {
        if t.edge(RF, w, r) {
            for v in 0..t.n {
                if t.edge(MO, v, w) & t.edge(RF, v, s) {
                    return true;
                }
            }
        }
    }
    false
}
