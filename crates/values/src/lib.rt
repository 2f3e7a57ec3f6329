// What a token is worth: the value that Push pushes, and u8, u16 and i32. From parser/actions.rs and pcode.rs.
#![tactic(auto)]

ghost use Rattle.std.specs.Prelude.{◌≡◌, false, ◌≤◌, length};
ghost use Rattle.std.specs.Float.{nan, inf};
ghost use Rattle.tokens.specs.declared.TokenKind.TheVariants as K;
ghost use Rattle.tokens.specs.Kinds.{is_kind};
ghost use Rattle.numbers.specs.Integers.{natural};
ghost use Rattle.values.specs.Values.{word_value, float_value, integer_value, push_value, or_six, value_answer, answer, bits_of, integer_text, u8_of, u16_of, i32_of};

use answers::Refusal;
use numbers::Double;
use tokens::{Span, Token, TokenKind};

// The nine of the Rust's `PushValue`, and Long: a number that has no double by one rounded operation, as it was typed.
// String and Long hold the bounds of the raw text.
#[derive(Clone, Copy)]
pub enum PushValue {
    Null,
    Undefined,
    String(Span),
    Integer(i32),
    Float(f64),
    True,
    False,
    Register(u8),
    Constant(u16),
    Long(Span),
}

fn infinity() -> f64
    ensures { result ≡ inf false }
{
    1.0 / 0.0
}

fn not_a_number() -> f64
    ensures { result ≡ nan }
{
    0.0 / 0.0
}

// The bits of a double; of nan one pattern, whatever bits the machine holds.
pub fn bits_of(x: f64) -> u64
    ensures { result ≡ bits_of x }
{
    if x != x {
        return 0x7FF8_0000_0000_0000;
    }
    f64::to_bits(x)
}

fn word_value(s: &[u8]) -> Result<PushValue, Refusal>
    ensures { answer result ≡ or_six (word_value s.now) }
{
    if words::same_word(s, b"infinity") {
        return Ok(PushValue::Float(infinity()));
    }
    if words::same_word(s, b"nan") {
        return Ok(PushValue::Float(not_a_number()));
    }
    Err(Refusal::NoValue)
}

#[tactic(auto, unfolding(crate::specs::Values::float_value))]
fn float_value(s: &[u8], raw: Span) -> Result<PushValue, Refusal>
    requires { length s.now ≤ 65536 }
    ensures { answer result ≡ or_six (float_value s.now raw) }
{
    match numbers::parse_double(s).ok_or(Refusal::NoValue)? {
        Double::Is(x) => Ok(PushValue::Float(x)),
        Double::Long => Ok(PushValue::Long(raw)),
    }
}

// An i32, else a number as `float_value` gives it.
#[tactic(auto, unfolding(crate::specs::Values::integer_value))]
fn integer_value(s: &[u8], raw: Span) -> Result<PushValue, Refusal>
    requires { length s.now ≤ 65536 }
    ensures { answer result ≡ or_six (integer_value s.now raw) }
{
    if let Some(n) = numbers::parse_integer(s) {
        return Ok(PushValue::Integer(n));
    }
    float_value(s, raw)
}

// The value of a token of that kind, raw text and bounds.
fn kind_value(kind: TokenKind, s: &[u8], raw: Span) -> Result<PushValue, Refusal>
    requires { length s.now ≤ 65536 }
    ensures { answer result ≡ or_six (push_value kind s.now raw) }
{
    match kind {
        TokenKind::String(_) => Ok(PushValue::String(raw)),
        TokenKind::Float => float_value(s, raw),
        TokenKind::Integer => integer_value(s, raw),
        TokenKind::Register(n) => Ok(PushValue::Register(n)),
        TokenKind::Constant(n) => Ok(PushValue::Constant(n)),
        TokenKind::Identifier => word_value(s),
        TokenKind::True => Ok(PushValue::True),
        TokenKind::False => Ok(PushValue::False),
        TokenKind::Null => Ok(PushValue::Null),
        TokenKind::Undefined => Ok(PushValue::Undefined),
        _ => Err(Refusal::NoValue),
    }
}

// The value of one token of a text.
pub fn value(text: &[u8], token: Token) -> Result<PushValue, Refusal>
    ensures { answer result ≡ value_answer text.now token }
{
    if 65536 < text.len() {
        return Err(Refusal::TooLong);
    }
    let raw = token.raw;
    let start = raw.start;
    let end = raw.end;
    if end < start {
        return Err(Refusal::NoValue);
    }
    if text.len() < end {
        return Err(Refusal::NoValue);
    }
    kind_value(token.kind, &text[start..end], raw)
}

fn is_integer(kind: TokenKind) -> bool
    ensures { result ≡ is_kind kind K.Integer }
{
    matches!(kind, TokenKind::Integer)
}

// What a whole number is parsed from: of an Integer token its raw text, of any other token nothing.
#[tactic(auto, unfolding(crate::specs::Values::integer_text))]
fn integer_text(text: &[u8], token: Token) -> &[u8]
    ensures { result.now ≡ integer_text text.now token }
{
    if !is_integer(token.kind) {
        return &text[..0];
    }
    tokens::raw_text(text, token)
}

// The number without a sign that a token writes, if it is at most `top`.
fn unsigned_of(top: u64, text: &[u8], token: Token) -> Option<u64>
    requires { top ≤ 65535 }
    ensures { result ≡ natural top (integer_text text.now token) }
{
    numbers::parse_natural(top, integer_text(text, token))
}

// The u8 that a token writes.
pub fn u8_of(text: &[u8], token: Token) -> Option<u64>
    ensures { result ≡ u8_of text.now token }
{
    unsigned_of(255, text, token)
}

// The u16 that a token writes.
pub fn u16_of(text: &[u8], token: Token) -> Option<u64>
    ensures { result ≡ u16_of text.now token }
{
    unsigned_of(65535, text, token)
}

// The i32 that a token writes.
pub fn i32_of(text: &[u8], token: Token) -> Option<i32>
    ensures { result ≡ i32_of text.now token }
{
    numbers::parse_integer(integer_text(text, token))
}
