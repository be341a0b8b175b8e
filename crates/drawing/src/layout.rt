// Where the records of a file stand.
ghost use Rattle.std.specs.Prelude.{◌≡◌, ◌*◌, ◌≤◌};
ghost use Rattle.model.specs.Limits.{most_actions, most_places, given_relations};
ghost use Rattle.drawing.specs.Files.{action_at, rows_length, relation_at, row_at, end_at, longest_file};

use model::limits::GIVEN_RELATIONS;

// The place bytes.
pub const PLACE_BYTES: usize = 16;

// Action i, 20 bytes each.
pub fn action(p: usize, i: usize) -> usize
    requires { (p ≤ most_places) × (i ≤ most_actions) }
    ensures { result ≡ action_at p i }
{
    PLACE_BYTES + p + 20 * i
}

// Bytes of the first a rows of n actions: 8 each up to 64 actions, 16 above.
pub fn rows_length(n: usize, a: usize) -> usize
    requires { a ≤ most_actions }
    ensures { (result ≡ rows_length n a) × (result ≤ 16 * a) }
{
    if rows::WIDTH < n {
        return 16 * a;
    }
    8 * a
}

// Relation k, each a head, its number and n rows.
pub fn relation(n: usize, p: usize, k: usize) -> usize
    requires { (n ≤ most_actions) × (p ≤ most_places) × (k ≤ given_relations) }
    ensures { (result ≡ relation_at n p k) × (result ≤ longest_file) }
{
    action(p, n) + (6 + rows_length(n, n)) * k
}

// Row a of the relation at `at`.
pub fn row(n: usize, at: usize, a: usize) -> usize
    requires { (at ≤ 65536) × (a ≤ most_actions) }
    ensures { result ≡ row_at n at a }
{
    at + 6 + rows_length(n, a)
}

// The end.
pub fn end(n: usize, p: usize) -> usize
    requires { (n ≤ most_actions) × (p ≤ most_places) }
    ensures { (result ≡ end_at n p) × (result ≤ longest_file) }
{
    relation(n, p, GIVEN_RELATIONS)
}
