// The line and the column of a byte in a text, both from 1. A place past the end is taken as the end.
#![tactic(auto)]

ghost use Rattle.std.specs.Prelude.{◌≡◌, cond, ◌≤◌, ◌<◌, length};
ghost use Rattle.places.specs.Places.{ends_at, place_in, line_start, code_points, is_tail, line_at, column_at};

use scanner::byte_at;

// Whether a line end is complete with the byte at an index.
#[tactic(auto, unfolding(crate::specs::Places::ends_at))]
fn ends_line(text: &[u8], i: usize) -> bool
    requires { i < length text.now }
    ensures { result ≡ ends_at text.now i }
{
    let b = byte_at(text, i);
    b == b'\n' || b == b'\r' && byte_at(text, i + 1) != b'\n'
}

#[tactic(auto, unfolding(crate::specs::Places::place_in))]
fn place_in(text: &[u8], at: usize) -> usize
    ensures { (result ≡ place_in text.now at) × (result ≤ length text.now) }
{
    at.min(text.len())
}

// The line that a byte stands in: the line ends before it, and one.
#[tactic(auto, unfolding(crate::specs::Places::line_ends))]
pub fn line_at(text: &[u8], at: usize) -> usize
    ensures { result ≡ line_at text.now at }
{
    let mut line = 1;
    for i in 0..place_in(text, at) {
        line += usize::from(ends_line(text, i));
    }
    line
}

// The byte that the line of a byte starts with.
#[tactic(auto, unfolding(crate::specs::Places::line_start))]
pub fn line_start(text: &[u8], at: usize) -> usize
    ensures { (result ≡ line_start text.now (place_in text.now at)) × (result ≤ place_in text.now at) }
{
    for i in (0..place_in(text, at)).rev() {
        if ends_line(text, i) {
            return i + 1;
        }
    }
    0
}

// Whether a byte is a later byte of a character.
pub fn is_tail(b: u8) -> bool
    ensures { result ≡ is_tail b }
{
    128 <= b && b <= 191
}

// How many characters a text has: its bytes that start one.
pub fn code_points(text: &[u8]) -> usize
    ensures { (result ≡ code_points text.now) × (result ≤ length text.now) }
{
    let mut n = 0;
    for b in text {
        n += usize::from(!is_tail(*b));
    }
    n
}

// The column of a byte: the characters between the start of its line and it, and one.
pub fn column_at(text: &[u8], at: usize) -> usize
    ensures { result ≡ column_at text.now at }
{
    let end = place_in(text, at);
    let start = line_start(text, at);
    code_points(&text[start..end]) + 1
}
