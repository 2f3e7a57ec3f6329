// What an operand may be, and whether the token at a place is that.
#![tactic(auto)]

ghost use Rattle.std.specs.Prelude.{◌≡◌, ◌/◌, eqb, Some};
ghost use Rattle.tokens.specs.Kinds.{kind_number};
ghost use Rattle.classes.specs.declared.Class.TheVariants as C;
ghost use Rattle.classes.specs.Lexemes.{Sound, kind_at, class_at, fits_at, acting_as, count_at, is_count_at};

use tokens::{TokenKind, kind_number, kind_place, token_of};
use values::{i32_of, u8_of, u16_of, value};

// What an operand may be.
#[derive(Clone, Copy)]
pub enum Class {
    String,
    Value,
    Bool,
    U8,
    U16,
    Identifier,
    Target,
}

// Whether the token at `at` is of that kind, whatever it carries.
#[inline]
pub fn is_kind_at(s: &[u64], at: usize, kind: TokenKind) -> bool
    ensures { result ≡ eqb (kind_at s.now at) (kind_number kind / 65536) }
{
    let place = kind_number(kind) / 65536;
    at < s.len() && kind_place(s[at]) == place
}

// Whether the token at `at` is such an operand.
pub fn fits_at(text: &[u8], s: &[u64], at: usize, m: Class) -> bool
    requires { Sound text.now s.now }
    ensures { result ≡ fits_at m text.now s.now at }
{
    if at >= s.len() {
        return false;
    }
    let t = token_of(s[at]);
    match m {
        Class::String => matches!(t.kind, TokenKind::String(_)),
        Class::Value => value(text, t).is_ok(),
        Class::Bool => matches!(t.kind, TokenKind::True | TokenKind::False),
        Class::U8 => u8_of(text, t).is_some(),
        Class::U16 => u16_of(text, t).is_some(),
        Class::Identifier => matches!(t.kind, TokenKind::Identifier),
        Class::Target => matches!(t.kind, TokenKind::String(_) | TokenKind::Register(_)),
    }
}

// A negative count acts as 0.
fn acts_as(n: i32) -> u64
    ensures { result ≡ acting_as (Some n) }
{
    if n < 0 { 0 } else { n as u64 }
}

// The number that the count at `at` acts as.
pub fn count_at(text: &[u8], s: &[u64], at: usize) -> u64
    ensures { result ≡ count_at text.now s.now at }
{
    if at >= s.len() {
        return 0;
    }
    let t = token_of(s[at]);
    match i32_of(text, t) {
        Some(n) => acts_as(n),
        None => 0,
    }
}

// Whether the token at `at` is an i32.
pub fn is_count(text: &[u8], s: &[u64], at: usize) -> bool
    ensures { result ≡ is_count_at text.now s.now at }
{
    if at >= s.len() {
        return false;
    }
    let t = token_of(s[at]);
    i32_of(text, t).is_some()
}
