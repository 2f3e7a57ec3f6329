// Where words, numbers and strings end. From lexer.rs.
#![tactic(auto)]

ghost use Rattle.std.specs.Prelude.{◌≡◌, Bool, ℕ, ◌≤◌, length, get_or};
ghost use Rattle.scanner.specs.Bytes.{is_digit, is_word_byte};
ghost use Rattle.scanner.specs.Ends.{Computes, run_end, word_end, digits_end, point_end, sign_end, power_end, exponent_end, stops, protects_next, string_stop};

// The byte at an index, 0 past the end.
pub fn byte_at(s: &[u8], i: usize) -> u8
    ensures { result ≡ get_or s.now i 0 }
{
    s.get(i).copied().unwrap_or(0)
}

pub fn is_digit(b: u8) -> bool
    ensures { result ≡ is_digit b }
{
    matches!(b, b'0'..=b'9')
}

// Small letters are the most frequent, so they are asked for first.
#[tactic(auto, unfolding(crate::specs::Bytes::is_word_byte))]
fn is_word_byte(b: u8) -> bool
    ensures { result ≡ is_word_byte b }
{
    matches!(b, b'a'..=b'z') || matches!(b, b'A'..=b'Z') || is_digit(b) || matches!(b, b'_' | b'$')
}

// Where the run of bytes from an index on ends that pass a test.
fn run_end<P: Fn(u8) -> bool>(s: &[u8], from: usize, passes: P) -> usize
    requires { P.IsAlwaysCallable passes }
    ensures { (p : ℕ → Bool) → Computes (P.post passes) p → result ≡ run_end p s.now from }
{
    for i in from..s.len() {
        if !passes(s[i]) {
            return i;
        }
    }
    from.max(s.len())
}

pub fn word_end(s: &[u8], from: usize) -> usize
    ensures { result ≡ word_end s.now from }
{
    run_end(s, from, is_word_byte)
}

pub fn digits_end(s: &[u8], from: usize) -> usize
    ensures { result ≡ digits_end s.now from }
{
    run_end(s, from, is_digit)
}

#[tactic(auto, unfolding(crate::specs::Ends::point_end))]
pub fn point_end(s: &[u8], i: usize) -> usize
    requires { i ≤ length s.now }
    ensures { result ≡ point_end s.now i }
{
    if byte_at(s, i) == b'.' {
        digits_end(s, i + 1)
    } else {
        i
    }
}

#[tactic(auto, unfolding(crate::specs::Ends::sign_end))]
pub fn sign_end(s: &[u8], i: usize) -> usize
    requires { i ≤ length s.now }
    ensures { result ≡ sign_end s.now i }
{
    match byte_at(s, i) {
        b'+' | b'-' => i + 1,
        _ => i,
    }
}

// The digits of an exponent, unless they run to the end of the text.
#[tactic(auto, unfolding(crate::specs::Ends::power_end))]
fn power_end(s: &[u8], i: usize) -> usize
    ensures { result ≡ power_end s.now i }
{
    let e = digits_end(s, i);
    if e < s.len() { e } else { i }
}

#[tactic(auto, using(crate::proofs::Runs::inside), unfolding(crate::specs::Ends::exponent_end))]
pub fn exponent_end(s: &[u8], i: usize) -> usize
    requires { i ≤ length s.now }
    ensures { result ≡ exponent_end s.now i }
{
    match byte_at(s, i) {
        b'e' | b'E' => power_end(s, sign_end(s, i + 1)),
        _ => i,
    }
}

fn is_stop(protected: bool, b: u8) -> bool
    ensures { result ≡ stops protected b }
{
    b == b'\n' || (!protected && b == b'"')
}

fn protects(protected: bool, b: u8) -> bool
    ensures { result ≡ protects_next protected b }
{
    !protected && b == b'\\'
}

// Where a string stops whose text starts at `from`: at its closing quote, a line feed or the end.
pub fn string_stop(s: &[u8], from: usize) -> usize
    ensures { result ≡ string_stop s.now from }
{
    let mut protected = false;
    for i in from..s.len() {
        if is_stop(protected, s[i]) {
            return i;
        }
        protected = protects(protected, s[i]);
    }
    from.max(s.len())
}
