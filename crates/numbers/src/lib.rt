// What a number's text is worth: u8, u16 and i32 as Rust parses them, and the double, to the bit or Long.
#![tactic(auto)]

ghost use Rattle.std.specs.Prelude.{◌≡◌, ◌+◌, ◌≤◌, ◌<◌, length, get_or};
ghost use Rattle.numbers.specs.Integers.{with_byte, value_of, up_to, is_natural, natural, is_minus, has_minus, minus_end, largest, signed_number, integer};
ghost use Rattle.numbers.specs.Doubles.{whole_end, mantissa_end, fraction_digits, has_digit, is_e, is_exponent, is_number, ten, scaled, signed, exponent, up, down, double_of, double};

// `Long` is a number that one rounded operation on exact operands does not give.
#[derive(Clone, Copy)]
pub enum Double {
    Is(f64),
    Long,
}

// A digit put behind the number n; any other byte changes nothing.
#[tactic(auto, unfolding(crate::specs::Integers::with_byte))]
fn with_byte(n: u64, b: u8) -> u64
    requires { n ≤ 9007199254740992 }
    ensures { result ≡ with_byte n b }
{
    if !scanner::is_digit(b) {
        return n;
    }
    n * 10 + (b - 48) as u64
}

// The number that the digits among the bytes write, if it is at most `top`.
fn number_up_to(top: u64, s: &[u8]) -> Option<u64>
    requires { top ≤ 9007199254740992 }
    ensures { result ≡ up_to top (value_of s.now) }
{
    let mut n = 0;
    for b in s {
        n = with_byte(n, *b);
        if top < n {
            return None;
        }
    }
    Some(n)
}

// One or more digits and nothing else.
#[tactic(auto, unfolding(crate::specs::Integers::is_natural))]
fn is_natural(s: &[u8]) -> bool
    ensures { result ≡ is_natural s.now }
{
    !s.is_empty() && scanner::digits_end(s, 0) == s.len()
}

// A number without a sign, if it is at most `top`.
#[tactic(auto, unfolding(crate::specs::Integers::natural))]
pub fn parse_natural(top: u64, s: &[u8]) -> Option<u64>
    requires { top ≤ 9007199254740992 }
    ensures { result ≡ natural top s.now }
{
    if !is_natural(s) {
        return None;
    }
    number_up_to(top, s)
}

fn has_minus(s: &[u8], i: usize) -> bool
    ensures { result ≡ is_minus (get_or s.now i 0) }
{
    scanner::byte_at(s, i) == b'-'
}

// Where the digits behind an optional minus start.
fn minus_end(s: &[u8]) -> usize
    ensures { result ≡ minus_end s.now }
{
    usize::from(has_minus(s, 0))
}

fn largest(negative: bool) -> u64
    ensures { result ≡ largest «negative» }
{
    if negative {
        return 2147483648;
    }
    2147483647
}

fn signed_number(negative: bool, n: u64) -> i32
    requires { n ≤ largest «negative» }
    ensures { result ≡ signed_number «negative» n }
{
    if negative {
        return (-(n as i64)) as i32;
    }
    n as i32
}

// An i32, with an optional minus.
pub fn parse_integer(s: &[u8]) -> Option<i32>
    ensures { result ≡ integer s.now }
{
    let negative = has_minus(s, 0);
    let digits = minus_end(s);
    let n = parse_natural(largest(negative), &s[digits..])?;
    Some(signed_number(negative, n))
}

const TENS: [f64; 23] = [
    1e0, 1e1, 1e2, 1e3, 1e4, 1e5, 1e6, 1e7, 1e8, 1e9, 1e10, 1e11, 1e12, 1e13, 1e14, 1e15, 1e16,
    1e17, 1e18, 1e19, 1e20, 1e21, 1e22,
];

// Where the digits before the point end.
#[tactic(auto, unfolding(crate::specs::Doubles::whole_end))]
fn whole_end(s: &[u8]) -> usize
    ensures { result ≡ whole_end s.now }
{
    scanner::digits_end(s, minus_end(s))
}

// Where those behind it end, and an exponent may start.
fn mantissa_end(s: &[u8]) -> usize
    ensures { result ≡ mantissa_end s.now }
{
    scanner::point_end(s, whole_end(s))
}

#[tactic(auto, unfolding(crate::specs::Doubles::fraction_digits))]
fn fraction_digits(s: &[u8]) -> usize
    ensures { result ≡ fraction_digits s.now }
{
    mantissa_end(s)
        .saturating_sub(whole_end(s))
        .saturating_sub(1)
}

// A number has a digit before the exponent.
#[tactic(auto, unfolding(crate::specs::Doubles::has_digit))]
fn has_digit(s: &[u8]) -> bool
    ensures { result ≡ has_digit s.now }
{
    minus_end(s) < whole_end(s) || 0 < fraction_digits(s)
}

fn is_e(b: u8) -> bool
    ensures { result ≡ is_e b }
{
    b == b'e' || b == b'E'
}

// Whether the rest from an index on is an exponent; one that is started has a digit.
fn is_exponent(s: &[u8], i: usize) -> bool
    ensures { result ≡ is_exponent s.now i }
{
    if !is_e(scanner::byte_at(s, i)) {
        return false;
    }
    let digits = scanner::sign_end(s, i + 1);
    is_natural(&s[digits..])
}

// Whether a text is in the number pattern.
#[tactic(auto, unfolding(crate::specs::Doubles::is_number))]
fn is_number(s: &[u8]) -> bool
    ensures { result ≡ is_number s.now }
{
    if !has_digit(s) {
        return false;
    }
    let end = mantissa_end(s);
    end == s.len() || is_exponent(s, end)
}

fn power_of_ten(p: u64) -> f64
    requires { p ≤ 22 }
    ensures { result ≡ ten p }
{
    TENS[p as usize]
}

// One rounded operation on two exact doubles.
#[tactic(auto, unfolding(crate::specs::Doubles::scaled))]
fn scaled(n: u64, up: u64, down: u64) -> f64
    requires { (n ≤ 9007199254740992) × ((up ≤ down + 22) × (down ≤ up + 22)) }
    ensures { result ≡ scaled n up down }
{
    if down <= up {
        return n as f64 * power_of_ten(up - down);
    }
    n as f64 / power_of_ten(down - up)
}

fn signed(negative: bool, x: f64) -> f64
    ensures { result ≡ signed «negative» x }
{
    if negative {
        return -x;
    }
    x
}

// The double of a number with that sign, digits and powers of ten, or Long.
fn short_double(negative: bool, n: u64, up: u64, down: u64) -> Double
    requires { (n ≤ 9007199254740992) × ((up ≤ 9007199254806528) × (down ≤ 9007199254806528)) }
    ensures { result ≡ double_of «negative» n up down }
{
    if n == 0 {
        return Double::Is(signed(negative, 0.0));
    }
    if down + 22 < up {
        return Double::Long;
    }
    if up + 22 < down {
        return Double::Long;
    }
    Double::Is(signed(negative, scaled(n, up, down)))
}

// The double of a number whose digits and exponent are known.
fn known_double(s: &[u8], end: usize, n: u64, x: u64) -> Double
    requires s_len_bound { (length s.now ≤ 65536) × (end ≡ mantissa_end s.now) }
    requires n_bound { (n ≤ 9007199254740992) × ((x ≤ 9007199254740992) × (x ≡ exponent s.now)) }
    ensures { result ≡ double_of (has_minus s.now) n (up s.now) (down s.now) }
{
    let negative = has_minus(s, 0);
    let fraction = fraction_digits(s) as u64;
    if has_minus(s, end + 1) {
        return short_double(negative, n, 0, x + fraction);
    }
    short_double(negative, n, x, fraction)
}

// The same where the exponent is past 2^53.
fn far_double(s: &[u8], n: u64) -> Double
    requires { (length s.now ≤ 65536) × (9007199254740992 < exponent s.now) }
    ensures { result ≡ double_of (has_minus s.now) n (up s.now) (down s.now) }
{
    if n == 0 {
        return Double::Is(signed(has_minus(s, 0), 0.0));
    }
    Double::Long
}

// The double that a number's text stands for.
pub fn parse_double(s: &[u8]) -> Option<Double>
    requires { length s.now ≤ 65536 }
    ensures { result ≡ double s.now }
{
    if !is_number(s) {
        return None;
    }
    let end = mantissa_end(s);
    let Some(n) = number_up_to(9007199254740992, &s[..end]) else {
        return Some(Double::Long);
    };
    let Some(x) = number_up_to(9007199254740992, &s[end..]) else {
        return Some(far_double(s, n));
    };
    Some(known_double(s, end, n, x))
}
