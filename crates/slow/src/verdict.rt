// The verdict and the counts, pair by pair.
ghost use Rattle.std.specs.Prelude.{◌&&◌, cond, ◌≡◌, ◌<◌, ◌≤◌, ltb, get_or};
ghost use Rattle.rows.specs.Sets.{never, count, pairs};
ghost use Rattle.rows.specs.Numbers.{size, held};
ghost use Rattle.model.specs.Model.{rules, in_force};
ghost use Rattle.model.specs.Judge.{verdict, indeterminate, indeterminates};
ghost use Rattle.table.specs.Reading.{on};

use crate::orders::middle_at;
use crate::{finals, offences};
use model::limits::RULES_END;
use model::{READ, RF, Verdict};
use table::Table;

// Whether the rule of that number offends at (a,b).
fn offends(rule: u32, t: Table, a: usize, b: usize) -> bool
    requires { (a < t.n) × (t.n ≤ size) }
    ensures { result ≡ get_or (on t.entry rules) rule never a b }
{
    match rule {
        1 => offences::rule1(t, a, b),
        2 => offences::rule2(t, a, b),
        3 => offences::rule3(t, a, b),
        4 => offences::rule4(t, a, b),
        5 => offences::rule5(t, a, b),
        6 => offences::rule6(t, a, b),
        7 => offences::rule7(t, a, b),
        8 => offences::rule8(t, a, b),
        9 => offences::rule9(t, a, b),
        10 => offences::rule10(t, a, b),
        11 => offences::rule11(t, a, b),
        12 => offences::rule12(t, a, b),
        13 => offences::rule13(t, a, b),
        14 => offences::rule14(t, a, b),
        15 => offences::rule15(t, a, b),
        16 => offences::rule16(t, a, b),
        17 => offences::rule17(t, a, b),
        18 => offences::rule18(t, a, b),
        19 => offences::rule19(t, a, b),
        20 => offences::rule20(t, a, b),
        21 => offences::rule21(t, a, b),
        22 => offences::rule22(t, a, b),
        23 => offences::rule23(t, a, b),
        24 => offences::rule24(t, a, b),
        25 => offences::rule25(t, a, b),
        26 => offences::rule26(t, a, b),
        27 => finals::rule27(t, a, b),
        28 => finals::rule28(t, a, b),
        29 => finals::rule29(t, a, b),
        30 => finals::rule30(t, a, b),
        31 => finals::rule31(t, a, b),
        32 => finals::rule32(t, a, b),
        33 => finals::rule33(t, a, b),
        34 => finals::rule34(t, a, b),
        35 => finals::rule35(t, a, b),
        36 => finals::rule36(t, a, b),
        _ => false,
    }
}

// Whether an edition has a rule: edition 2 has 27 to 36 in place of 15 and 19 to 23.
fn is_in_force(edition: usize, rule: u32) -> bool
    ensures { result ≡ in_force edition rule }
{
    let replaced = (rule == 15)
        | (rule == 19)
        | (rule == 20)
        | (rule == 21)
        | (rule == 22)
        | (rule == 23);
    (!replaced | (edition != 2)) & ((rule < 27) | (edition == 2))
}

// The lowest rule of an edition that offends, there the least a, then the least b, and the middle there.
pub fn scan(t: Table, edition: usize) -> Verdict
    requires { t.n ≤ size }
    ensures { result ≡ on t.entry (verdict edition) }
{
    let mut found = Verdict::Passed;
    // A form of the paper: a nested scan left by a label.
    'scan: for rule in 1..RULES_END {
        if is_in_force(edition, rule) {
            for a in 0..t.n {
                for b in 0..t.n {
                    if offends(rule, t, a, b) {
                        let middle = middle_at(rule, t, a, b);
                        found = Verdict::Broken { rule, a, b, middle };
                        break 'scan;
                    }
                }
            }
        }
    }
    found
}

// ---- the counts

// 1 for what holds, and 0 for what doesn't.
fn one_if(p: bool) -> u32
    ensures { result ≡ cond p 1 0 }
{
    if p {
        return 1;
    }
    0
}

// How many b have a<b and a→b in relation k.
fn above(t: Table, k: u32, a: usize) -> u32
    requires { t.n ≤ size }
    ensures { result ≡ count t.entry.n (λ b. ltb a b && held t.entry.numbers.now k a b) }
{
    let mut total: u32 = 0;
    for b in 0..t.n {
        total += one_if((a < b) & t.edge(k, a, b));
    }
    total
}

// A count counts a<b.
pub fn pairs(t: Table, k: u32) -> u32
    requires { t.n ≤ size }
    ensures { result ≡ pairs t.entry.n (held t.entry.numbers.now k) }
{
    let mut total: u32 = 0;
    for a in 0..t.n {
        total += above(t, k, a);
    }
    total
}

// Indeterminate: a read with no rf source.
pub fn is_indeterminate(t: Table, b: usize) -> bool
    ensures { result ≡ on t.entry indeterminate b }
{
    t.is(READ, b) & !offences::reached(t, RF, b)
}

// How many there are.
pub fn indeterminates(t: Table) -> u32
    requires { t.n ≤ size }
    ensures { result ≡ on t.entry indeterminates }
{
    let mut total: u32 = 0;
    for b in 0..t.n {
        total += one_if(is_indeterminate(t, b));
    }
    total
}
