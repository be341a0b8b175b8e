// The rules of both editions: the offences of each in a row, and the scan that finds the lowest rule broken, its least pair and the middle there.
#![tactic(auto)]

ghost use Rattle.std.specs.Prelude.{◌≡◌, ◌≤◌};
ghost use Rattle.rows.specs.Sets.{none, before};
ghost use Rattle.rows.specs.Numbers.{size, has, held};
ghost use Rattle.model.specs.Model.{in_force};
ghost use Rattle.model.specs.Judge.{verdict, indeterminate, indeterminates};
ghost use Rattle.model.specs.Laws.Filled.{Filled};
ghost use Rattle.model.specs.Laws.Placing.{Placing};
ghost use Rattle.desk.specs.Notes.{Noted};
ghost use Rattle.desk.specs.Reading.{on, over};
ghost use Rattle.rules.specs.Promises.{numbered, Settled, Suspects, FindsRule};

use desk::Desk;
use model::limits::RULES_END;
use model::{AT_ATOMIC, AT_MUTEX, READ, RF, RMW, SB, SC_ACTION, SEQ_CST, UNLOCK, Verdict, WORDS};
use rows::Row;

mod edges;
mod finals;
mod orders;
mod reads;

// The relation that an order test is of: all of relation k, or relation k kept to one place of the kind w.
#[derive(Clone, Copy)]
enum Tested {
    Whole(u32),
    Kept { w: usize, k: u32 },
}

// What a rule finds in the row of an action: where it offends, and the relation tested with its row, which tell the middle at the first of these.
#[derive(Clone, Copy)]
struct Found {
    offences: Row,
    row: Row,
    tested: Tested,
}

// Offences of a rule that tests no order: there is no middle, since nothing leads anywhere.
fn bare(offences: Row) -> Found
    ensures { (has result.offences ≡ has offences) × (has result.row ≡ none) }
{
    Found {
        offences,
        row: Row::empty(),
        tested: Tested::Whole(SB),
    }
}

// What a rule, by its number, finds in the row of a; a rule from 27 on, where those below that both editions have hold.
fn find(rule: u32, desk: &Desk, a: usize) -> Found
    ensures { (27 ≤ rule → on desk.now Settled) → over desk.now (FindsRule rule) a result }
{
    match rule {
        1 => bare(edges::rule1_row(desk, a)),
        2 => bare(edges::rule2_row(desk, a)),
        3 => bare(edges::rule3_row(desk, a)),
        4 => orders::rule4_test(desk, a),
        5 => bare(edges::rule5_row(desk, a)),
        6 | 10 | 14 => orders::total_rule_test(rule, desk.book, desk.n, a),
        7 => bare(edges::rule7_row(desk, a)),
        8 => bare(edges::rule8_row(desk, a)),
        9 => bare(edges::rule9_row(desk, a)),
        11 => bare(edges::rule11_row(desk, a)),
        12 => bare(edges::rule12_row(desk, a)),
        13 => bare(edges::rule13_row(desk, a)),
        15 => bare(edges::rule15_row(desk, a)),
        16 => bare(edges::rule16_row(desk, a)),
        17 => bare(reads::rule17_row(desk, a)),
        18 => bare(reads::rule18_row(desk, a)),
        19 => bare(reads::rule19_row(desk, a)),
        20 => bare(reads::rule20_row(desk, a)),
        21 => bare(reads::rule21_row(desk, a)),
        22 => bare(reads::rule22_row(desk, a)),
        23 => bare(reads::rule23_row(desk, a)),
        24 => bare(reads::rule24_row(desk, a)),
        25 => bare(reads::rule25_row(desk, a)),
        26 => bare(reads::rule26_row(desk, a)),
        _ => bare(finals::row(rule, desk, a)),
    }
}

// The actions in whose rows a rule, by its number, can offend; a rule from 27 on, likewise.
fn suspects(rule: u32, desk: &Desk) -> Row
    ensures { (27 ≤ rule → on desk.now Settled) → over desk.now (Suspects (numbered rule)) result }
{
    match rule {
        1 => edges::rule1_bad(desk),
        2 => edges::rule2_bad(desk),
        6 | 8 => desk.row(WORDS, AT_MUTEX),
        7 => desk.row(WORDS, UNLOCK),
        11 | 12 => desk.row(WORDS, SC_ACTION),
        14 | 15 | 16 | 21 => desk.row(WORDS, AT_ATOMIC),
        17 | 18 => reads::sources(desk, Row::full()),
        19 => reads::rule19_bad(desk),
        20 => reads::rule20_bad(desk),
        22 => reads::sources(desk, desk.row(WORDS, RMW)),
        23 => reads::sources(desk, desk.row(WORDS, SEQ_CST)),
        24 => reads::rule24_suspects(desk),
        25 => reads::rule25_suspects(desk),
        26 => reads::rule26_suspects(desk),
        _ => finals::suspects(rule, desk),
    }
}

// Whether an edition has a rule: edition 2 has 27 to 36 in place of 15 and 19 to 23.
fn is_in_force(edition: usize, rule: u32) -> bool
    ensures { result ≡ in_force edition rule }
{
    if edition == 2 {
        !matches!(rule, 15 | 19..=23)
    } else {
        rule < 27
    }
}

// The lowest rule of an edition that offends between the n actions, its least row, the least column there, and the middle of that pair.
pub fn scan(d: &[u64], e: &[u64], edition: usize, n: usize) -> Verdict
    requires { (n ≤ size) × Noted n (held d.now) (held e.now) × Filled n (held d.now) × Placing n (held d.now) }
    ensures { result ≡ verdict edition n (held d.now) }
{
    let desk = Desk {
        book: d,
        notes: e,
        n,
    };
    let mut verdict = Verdict::Passed;
    'scan: for rule in 1..RULES_END {
        if is_in_force(edition, rule) {
            for a in suspects(rule, &desk).before(n) {
                let found = find(rule, &desk, a);
                let offences = found.offences;
                let b = offences.lowest();
                if b < n {
                    let middle = found.middle(d, n, b);
                    verdict = Verdict::Broken { rule, a, b, middle };
                    break 'scan;
                }
            }
        }
    }
    verdict
}

// The reads with no rf source.
pub fn indeterminate_reads(d: &[u64], n: usize) -> Row
    ensures { has result ≡ before (indeterminate n (held d.now)) n }
{
    let fed = rows::join(Row::full(), d, RF, n);
    rows::load(d, WORDS, READ).minus(fed).before(n)
}

// How many reads have no rf source.
pub fn indeterminate_count(d: &[u64], n: usize) -> u32
    requires { n ≤ size }
    ensures { result ≡ indeterminates n (held d.now) }
{
    indeterminate_reads(d, n).count()
}
