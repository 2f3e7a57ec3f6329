// What a token means, as a number, as a string's field, and as what Push pushes.
#![tactic(auto)]

ghost use Rattle.std.specs.Prelude.{◌≡◌, [], ◌∷◌, true, ◌≤◌, ◌<◌, length};
ghost use Rattle.std.proofs.Math.Option.{some};
ghost use Rattle.tokens.specs.declared.TokenKind.TheVariants as K;
ghost use Rattle.tokens.specs.Kinds.{is_kind};
ghost use Rattle.movies.specs.Movie.{string, number, integer, constant, number_in};
ghost use Rattle.movies.specs.Strings.{decoded};
ghost use Rattle.movies.specs.Meaning.{meant};
ghost use Rattle.action_records.specs.Fields.{UI8, two's_complement};
ghost use Rattle.action_records.specs.Operands as R;
ghost use Rattle.field_coding.specs.Coding.{Codes, Room, Adds};
ghost use Rattle.operand_coding.specs.Operands.{meaning_in, Held};

use field_coding::Coder;
use tokens::{Token, TokenKind, raw_text};
use values::PushValue;

// ---- numbers

// A number below 0 counts as 0.
fn natural(n: i32) -> u64
    ensures value { result ≡ number_in (integer n) }
    ensures upper_bound { result < 4294967296 }
{
    if n < 0 { 0 } else { n as u64 }
}

fn number_in(v: PushValue) -> u64
    ensures value { result ≡ number_in (meant (some v) []) }
    ensures upper_bound { result < 4294967296 }
{
    match v {
        PushValue::Null => 0,
        PushValue::Undefined => 0,
        PushValue::String(_) => 0,
        PushValue::Integer(n) => natural(n),
        PushValue::Float(_) => 0,
        PushValue::True => 1,
        PushValue::False => 0,
        PushValue::Register(n) => n as u64,
        PushValue::Constant(n) => n as u64,
        PushValue::Long(_) => 0,
    }
}

pub fn number_of(text: &[u8], token: Token) -> u64
    requires { Held text.now token }
    ensures value { result ≡ number_in (meaning_in text.now token) }
    ensures upper_bound { result < 4294967296 }
{
    match values::value(text, token) {
        Ok(v) => number_in(v),
        Err(_) => 0,
    }
}

// ---- strings and registers

fn is_string(kind: TokenKind) -> bool
    ensures { result ≡ is_kind kind (K.String true) }
{
    match kind {
        TokenKind::String(_) => true,
        _ => false,
    }
}

pub fn is_register(kind: TokenKind) -> bool
    ensures { result ≡ is_kind kind (K.Register 0) }
{
    match kind {
        TokenKind::Register(_) => true,
        _ => false,
    }
}

// Of a token that is no string the empty one.
pub fn put_text(text: &[u8], token: Token, w: &mut Coder)
    requires text_len_bound { length text.now ≤ 65536 }
    requires room { Room 131074 w.old }
    ensures codes { Codes (R.text (meaning_in text.now token) ∷ []) w.old w.new }
    ensures adds { Adds 131074 w.old w.new }
{
    let kind = token.kind;
    if is_string(kind) {
        w.put_string(raw_text(text, token));
        return;
    }
    w.put_byte(0, true);
}

// ---- what Push pushes

// The 32 bits of a signed number.
fn bits_32(n: i32) -> u64
    ensures { result ≡ two's_complement 32 n }
{
    (n as i64 + 4294967296) as u64 % 4294967296
}

fn put_number(x: f64, w: &mut Coder)
    requires { Room 9 w.old }
    ensures { Codes (R.pushed_as (number x)) w.old w.new }
{
    let bits = values::bits_of(x);
    w.put_8(6);
    w.put_32(bits / 4294967296);
    w.put_32(bits % 4294967296);
}

// A place in the constant pool takes one byte if it can.
fn put_constant(n: u16, w: &mut Coder)
    requires { Room 3 w.old }
    ensures codes { Codes (R.pushed_as (constant n)) w.old w.new }
    ensures adds { Adds 3 w.old w.new }
{
    if n <= 255 {
        w.put_8(8);
        w.put_8(n as u64);
        return;
    }
    w.put_8(9);
    w.put_16(n as u64);
}

// A value of the type that takes one byte.
fn put_typed(kind: u64, n: u64, w: &mut Coder)
    requires { Room 2 w.old }
    ensures { Codes (UI8 kind ∷ UI8 n ∷ []) w.old w.new }
{
    w.put_8(kind);
    w.put_8(n);
}

fn put_integer(n: i32, w: &mut Coder)
    requires { Room 5 w.old }
    ensures { Codes (R.pushed_as (integer n)) w.old w.new }
{
    w.put_8(7);
    w.put_32(bits_32(n));
}

fn put_typed_string(raw: &[u8], w: &mut Coder)
    requires raw_len_bound { length raw.now ≤ 65536 }
    requires room { Room 131075 w.old }
    ensures codes { Codes (R.pushed_as (string (decoded raw.now))) w.old w.new }
    ensures adds { Adds 131075 w.old w.new }
{
    w.put_8(0);
    w.put_string(raw);
}

// A value and its type; a string's bytes are those of its raw text.
fn put_value(raw: &[u8], v: PushValue, w: &mut Coder)
    requires raw_len_bound { length raw.now ≤ 65536 }
    requires room { Room 131075 w.old }
    ensures codes { Codes (R.pushed_as (meant (some v) raw.now)) w.old w.new }
    ensures adds { Adds 131075 w.old w.new }
{
    match v {
        PushValue::Null => w.put_8(2),
        PushValue::Undefined => w.put_8(3),
        PushValue::String(_) => put_typed_string(raw, w),
        PushValue::Integer(n) => put_integer(n, w),
        PushValue::Float(x) => put_number(x, w),
        PushValue::True => put_typed(5, 1, w),
        PushValue::False => put_typed(5, 0, w),
        PushValue::Register(n) => put_typed(4, n as u64, w),
        PushValue::Constant(n) => put_constant(n, w),
        PushValue::Long(_) => w.holds = false,
    }
}

// A value by what its token is worth.
fn put_worth(text: &[u8], token: Token, w: &mut Coder)
    requires held { Held text.now token }
    requires room { Room 131075 w.old }
    ensures codes { Codes (R.pushed_as (meaning_in text.now token)) w.old w.new }
    ensures adds { Adds 131075 w.old w.new }
{
    match values::value(text, token) {
        Ok(v) => put_value(raw_text(text, token), v, w),
        Err(_) => w.put_8(2),
    }
}

// A value and its type. The kind tells all of a string, a register and a constant.
pub fn put_pushed(text: &[u8], token: Token, w: &mut Coder)
    requires held { Held text.now token }
    requires room { Room 131075 w.old }
    ensures codes { Codes (R.pushed_as (meaning_in text.now token)) w.old w.new }
    ensures adds { Adds 131075 w.old w.new }
{
    let kind = token.kind;
    match kind {
        TokenKind::String(_) => put_typed_string(raw_text(text, token), w),
        TokenKind::Register(n) => put_typed(4, n as u64, w),
        TokenKind::Constant(n) => put_constant(n, w),
        _ => put_worth(text, token, w),
    }
}
