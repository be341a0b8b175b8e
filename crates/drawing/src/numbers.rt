// Little-endian numbers in a slice of bytes.
#![tactic(auto, unfolding(crate::specs::Files::le_at))]

ghost use Rattle.std.specs.Prelude.{◌≡◌, ◌+◌, ◌≤◌, length};
ghost use Rattle.rows.specs.Numbers.{bit, has};
ghost use Rattle.drawing.specs.Files.{le_at, row_bytes};

use rows::Row;

// Two bytes.
pub fn short(s: &[u8], at: usize) -> u16
    requires { at + 2 ≤ length s.now }
    ensures { result ≡ le_at s.now at 2 }
{
    u16::from_le_bytes([s[at], s[at + 1]])
}

// Two bytes, as a count or a position.
pub fn half(s: &[u8], at: usize) -> usize
    requires { at + 2 ≤ length s.now }
    ensures { result ≡ le_at s.now at 2 }
{
    usize::from(short(s, at))
}

// Four bytes.
pub fn word(s: &[u8], at: usize) -> u32
    requires { at + 4 ≤ length s.now }
    ensures { result ≡ le_at s.now at 4 }
{
    u32::from_le_bytes([s[at], s[at + 1], s[at + 2], s[at + 3]])
}

// Eight bytes.
fn long(s: &[u8], at: usize) -> u64
    requires { at + 8 ≤ length s.now }
    ensures { result ≡ le_at s.now at 8 }
{
    u64::from_le_bytes([
        s[at],
        s[at + 1],
        s[at + 2],
        s[at + 3],
        s[at + 4],
        s[at + 5],
        s[at + 6],
        s[at + 7],
    ])
}

// A row of n actions, low half first.
pub fn row(s: &[u8], n: usize, at: usize) -> Row
    requires { at + row_bytes n ≤ length s.now }
    ensures { has result ≡ bit (le_at s.now at (row_bytes n)) }
{
    let low = long(s, at);
    if rows::WIDTH < n {
        let high = long(s, at + 8);
        return Row::of_halves(low, high);
    }
    Row::of(low)
}
