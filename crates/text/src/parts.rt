// The places and the actions of a text whose lines were checked.
ghost use Rattle.std.specs.Prelude.{ℕ, ◌≤◌, ◌≡◌};
ghost use Rattle.rows.specs.Numbers.{listed};
ghost use Rattle.model.specs.Limits.{most_actions, most_places};
ghost use Rattle.text.specs.Laws.Walks.{first};
ghost use Rattle.text.specs.Parts.{place_no, action_no};

use model::Action;
use model::limits::{MOST_ACTIONS, MOST_PLACES};
use spelling::actions::{action_at, after_action};
use spelling::places::{after_place, place_at};

// What n lines from `at` on are read as, one after another, each by `line`, which gives that and the place after it; then what `none` has there.
fn read<T: Copy, const N: usize, F: Fn(usize) -> (T, usize)>(
    none: [T; N],
    at: usize,
    n: usize,
    line: F,
) -> [T; N]
    requires few { n ≤ N }
    requires callable { F.IsAlwaysCallable line }
    ensures { (read : ℕ → T) (step : ℕ → ℕ → ℕ) (d : T) → ((i q : ℕ) (r : T × ℕ) → F.post line q r → (r.0 ≡ read q) × (r.1 ≡ step i q)) → none ≡ listed N (λ _. d) → result ≡ listed N (first read d step at n) }
{
    let mut list = none;
    let mut next = at;
    for i in 0..n {
        let (x, after) = line(next);
        list[i] = x;
        next = after;
    }
    list
}

// The bytes of p places, whose lines begin at `at`.
pub fn places(s: &[u8], at: usize, p: usize) -> [u8; MOST_PLACES]
    requires { p ≤ most_places }
    ensures { result ≡ listed most_places (place_no s.now at p) }
{
    read([0; MOST_PLACES], at, p, |q| {
        let k = place_at(s, q);
        (k, after_place(s, q, k))
    })
}

// The n actions, whose lines begin at `at`.
pub fn actions(s: &[u8], at: usize, n: usize) -> [Action; MOST_ACTIONS]
    requires { n ≤ most_actions }
    ensures { result ≡ listed most_actions (action_no s.now at n) }
{
    read(drawing::no_actions(), at, n, |q| {
        let x = action_at(s, q);
        (x, after_action(s, q, x))
    })
}
