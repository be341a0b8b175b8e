// The check of a text, line by line: refusal 13 where the first bad line starts.
ghost use Rattle.std.specs.Prelude.{ℕ, ◌≡◌};
ghost use Rattle.drawing.specs.Files.{walks};
ghost use Rattle.model.specs.Refusals.{Walk};
ghost use Rattle.text.specs.Reads.{Reached};
ghost use Rattle.text.specs.Texts.{limits_ok, place_test, place_step, action_test, action_step, along, reached, begun, begin_check, end_test};

use crate::Beginning;
use drawing::kinds;
use model::Header;
use model::limits::{MOST_ACTIONS, MOST_PLACES, MOST_THREADS};
use model::refusals::{Reason, Refusal};
use spelling::actions::{action_at, after_action};
use spelling::after;
use spelling::first::first_line;
use spelling::places::{after_place, place_at};

// Whether the numbers of the first line are within their limits.
#[tactic(auto, unfolding(crate::specs::Texts::limits_ok))]
fn within_limits(head: Header) -> bool
    ensures { result ≡ limits_ok head.edition head.n head.t head.p }
{
    kinds::edition_ok(head.edition)
        && head.n <= MOST_ACTIONS
        && head.t <= MOST_THREADS
        && head.p <= MOST_PLACES
}

// n lines from `at` on, each read by `line`, which gives the place after it: the place after them, or the first refusal.
fn lines<F: Fn(usize) -> Result<usize, Refusal>>(
    at: usize,
    n: usize,
    line: F,
) -> Result<usize, Refusal>
    requires { F.IsAlwaysCallable line }
    ensures { (test : ℕ → Walk) (step : ℕ → ℕ → ℕ) → ((i q : ℕ) (r : Reached) → F.post line q r → r ≡ reached (test q) (step i q)) → result ≡ reached (walks (λ (i : ℕ). test (along step at i)) 0 n) (along step at n) }
{
    let mut next = at;
    for _ in 0..n {
        next = line(next)?;
    }
    Ok(next)
}

// A place's line.
#[tactic(auto, using(spelling::specs::Laws::Stands::moves, spelling::proofs::Laws::Lengths::place_some), unfolding(crate::specs::Texts::place_test))]
fn place(s: &[u8], at: usize) -> Result<usize, Refusal>
    ensures { result ≡ reached (place_test s.now at) (place_step s.now 0 at) }
{
    let next = after_place(s, at, place_at(s, at));
    Reason::BadLine.unless(at < next, at)?;
    Ok(next)
}

// The lines of p places.
fn places(s: &[u8], at: usize, p: usize) -> Result<usize, Refusal>
    ensures { result ≡ reached (walks (λ (i : ℕ). place_test s.now (along (place_step s.now) at i)) 0 p) (along (place_step s.now) at p) }
{
    lines(at, p, |q| place(s, q))
}

// An action's line.
#[tactic(auto, using(spelling::specs::Laws::Stands::moves, spelling::proofs::Laws::Lengths::action_some), unfolding(crate::specs::Texts::action_test))]
fn action(s: &[u8], at: usize, t: usize, p: usize) -> Result<usize, Refusal>
    ensures { result ≡ reached (action_test s.now t p at) (action_step s.now 0 at) }
{
    let x = action_at(s, at);
    let next = after_action(s, at, x);
    Reason::BadLine.unless(at < next, at)?;
    Reason::BadLine.unless(kinds::action_ok(x, t, p), at)?;
    Ok(next)
}

// The lines of n actions.
fn actions(s: &[u8], at: usize, n: usize, t: usize, p: usize) -> Result<usize, Refusal>
    ensures { result ≡ reached (walks (λ (i : ℕ). action_test s.now t p (along (action_step s.now) at i)) 0 n) (along (action_step s.now) at n) }
{
    lines(at, n, |q| action(s, q, t, p))
}

// The first line, the places and the actions of a text of any bytes.
pub fn begin(s: &[u8]) -> Result<Beginning, Refusal>
    ensures { result ≡ begun (begin_check s.now) s.now }
{
    let line = first_line(s);
    let head = line.head;
    Reason::BadLine.unless(0 < line.next, 0)?;
    Reason::BadLine.unless(within_limits(head), 0)?;
    let first = places(s, line.next, head.p)?;
    let edges = actions(s, first, head.n, head.t, head.p)?;
    Ok(Beginning {
        head,
        places: line.next,
        actions: first,
        edges,
    })
}

// The last line, and nothing after it.
#[tactic(auto, using(spelling::specs::Laws::Stands::moves, spelling::specs::Laws::Stands::stands_moves), unfolding(crate::specs::Texts::end_test))]
pub fn end(s: &[u8], at: usize) -> Result<(), Refusal>
    ensures { result ≡ end_test s.now at }
{
    let next = after(s, at, b"end\n");
    Reason::BadLine.unless(at < next, at)?;
    Reason::BadLine.unless(s.len() <= next, next)
}
