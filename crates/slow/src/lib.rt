// The second engine: the paper read pair by pair, for those who check the first.
#![tactic(auto)]

ghost use Rattle.std.specs.Prelude.{cond, [], ◌≡◌, ◌≤◌, ltb, length};
ghost use Rattle.rows.specs.Numbers.{size};
ghost use Rattle.model.specs.Judge.{order_part, judgement, serial_order, precedes, greedy, onto};
ghost use Rattle.table.specs.Reading.{on};

use model::{DATA_RACES, Judged, OrderPart, UNSEQUENCED_RACES};
use table::Table;

pub mod actions;
mod derived;
pub mod fill;
mod finals;
mod offences;
mod orders;
mod serial;
pub mod verdict;

// The order's part of the answer, with the serial order in the buffer if it is due.
fn give_order(t: Table, order: &mut [u8], due: bool) -> OrderPart
    requires { (t.n ≤ size) × (t.n ≤ length order.old) }
    ensures value { result ≡ order_part due }
    ensures order_after { order.new ≡ onto (cond due (greedy t.entry.n (on t.entry precedes) t.entry.n (λ a. ltb a t.entry.n)) []) order.old }
{
    if due {
        serial::serial(t, order);
        return OrderPart::Given;
    }
    OrderPart::Refused
}

// What the rules, the races and the order say of a table with relations 7 to 17.
pub fn judge(t: Table, order: &mut [u8], edition: usize) -> Judged
    requires { (t.n ≤ size) × (t.n ≤ length order.old) }
    ensures value { result ≡ on t.entry (judgement edition) }
    ensures order_after { order.new ≡ onto (on t.entry (serial_order edition)) order.old }
{
    let verdict = verdict::scan(t, edition);
    let indeterminate = verdict::indeterminates(t);
    let unsequenced = verdict::pairs(t, UNSEQUENCED_RACES);
    let races = verdict::pairs(t, DATA_RACES);
    let due = serial::is_due(t, edition, verdict, indeterminate, unsequenced, races);
    let part = give_order(t, order, due);
    Judged {
        verdict,
        indeterminate,
        unsequenced,
        races,
        order: part,
    }
}
