// UTF-8 as Rust's `str` requires it.
#![tactic(auto)]

ghost use Rattle.std.specs.Prelude.{◌≡◌, cond, [], ◌∷◌, ◌+◌, ◌<◌, ◌≤◌, length, drop};
ghost use Rattle.utf8.specs.Utf8.{◌to◌, tail, starts, char_len, valid_up_to};
ghost use Rattle.utf8.specs.Front.{four_ascii, ValidFront};

// Whether a byte stands at an index, and within a range.
#[tactic(auto, using(crate::proofs::Starts::at, crate::proofs::Starts::past))]
fn in_range(s: &[u8], i: usize, low: u8, high: u8) -> bool
    ensures { result ≡ starts (low to high ∷ []) (drop i s.now) }
{
    i < s.len() && (low <= s[i] && s[i] <= high)
}

// Whether the second byte is within a range and the third is a tail.
fn three(s: &[u8], low: u8, high: u8) -> bool
    ensures { result ≡ starts (low to high ∷ tail ∷ []) (drop 1 s.now) }
{
    in_range(s, 1, low, high) && in_range(s, 2, 128, 191)
}

// The same, and the fourth is a tail.
fn four(s: &[u8], low: u8, high: u8) -> bool
    ensures { result ≡ starts (low to high ∷ tail ∷ tail ∷ []) (drop 1 s.now) }
{
    three(s, low, high) && in_range(s, 3, 128, 191)
}

fn sized(fits: bool, n: usize) -> usize
    ensures { result ≡ cond fits n 0 }
{
    if fits { n } else { 0 }
}

// The bytes of the character that the text starts with, 0 if it starts with none: the table's rows.
#[tactic(auto, using(crate::proofs::Rows::ascii, crate::proofs::Rows::two, crate::proofs::Rows::three_224, crate::proofs::Rows::three_225, crate::proofs::Rows::three_237, crate::proofs::Rows::three_238, crate::proofs::Rows::four_240, crate::proofs::Rows::four_241, crate::proofs::Rows::no_first, crate::proofs::Rows::none))]
fn char_len(s: &[u8]) -> usize
    requires { 0 < length s.now }
    ensures { result ≡ char_len s.now }
{
    // most characters are one byte, and a match asks for others first
    if s[0] < 128 {
        return 1;
    }
    match s[0] {
        194..=223 => sized(in_range(s, 1, 128, 191), 2),
        224 => sized(three(s, 160, 191), 3),
        225..=236 => sized(three(s, 128, 191), 3),
        237 => sized(three(s, 128, 159), 3),
        238..=239 => sized(three(s, 128, 191), 3),
        240 => sized(four(s, 144, 191), 4),
        241..=243 => sized(four(s, 128, 191), 4),
        244 => sized(four(s, 128, 143), 4),
        _ => 0,
    }
}

// Whether the four bytes from an index on are a character each.
fn four_ascii(s: &[u8], i: usize) -> bool
    requires { i + 4 ≤ length s.now }
    ensures { result ≡ four_ascii s.now i }
{
    s[i] < 128 && s[i + 1] < 128 && s[i + 2] < 128 && s[i + 3] < 128
}

// Valid bytes at the front, four at a time; most texts have no others. `chunks_exact` tells no index, which would be counted beside it.
fn ascii_front(text: &[u8]) -> usize
    ensures { ValidFront text.now result }
{
    let mut at = 0;
    while 4 <= text.len() - at {
        if !four_ascii(text, at) {
            return at;
        }
        at += 4;
    }
    at
}

// The count of leading valid bytes: the place of refusal 2 where it is below the length.
pub fn valid_up_to(text: &[u8]) -> usize
    ensures { result ≡ valid_up_to text.now }
{
    let mut at = ascii_front(text);
    // a character takes up to four bytes, so this is no `for`
    while at < text.len() {
        let n = char_len(&text[at..]);
        if n == 0 {
            return at;
        }
        at += n;
    }
    at
}
