// What C is told of tokens, deltas, values, names and places: the numbers of an answer in `out` arrays, and 0 or a refusal's number.
#![tactic(auto)]

ghost use Rattle.std.specs.Prelude.{◌≡◌, length};
ghost use Rattle.words.specs.Spellings.{all_letters};
ghost use Rattle.lexer.specs.Lexing as Lexes;
ghost use Rattle.pcode.specs.Deltas as Deltas;
ghost use Rattle.values.specs.Values as Values;
ghost use Rattle.c_tokens.specs.Tokens.{returned, tokens_after, token_after, bounds_after, delta_after, token_with, value_with, fields_of, integer_after, value_after};
ghost use Rattle.c_tokens.specs.Places.{name_of, word_after, place_after};

use answers::Refusal;
use tokens::{Span, Token};
use values::PushValue;

pub fn tell_tokens(answer: Result<usize, Refusal>, out: &mut [u64; 1]) -> u64
    ensures value { result ≡ returned (Lexes.answer answer) }
    ensures out_after { out.new ≡ tokens_after (Lexes.answer answer) out.old }
{
    match answer {
        Ok(n) => {
            out[0] = n as u64;
            0
        }
        Err(r) => {
            out[0] = answers::refusal_place(r) as u64;
            answers::refusal_number(r)
        }
    }
}

pub fn tell_token(token: Token, out: &mut [u64; 5])
    ensures { out.new ≡ token_after token out.old }
{
    let kind = token.kind;
    let span = token.span;
    let raw = token.raw;
    out[0] = tokens::kind_number(kind);
    out[1] = span.start as u64;
    out[2] = span.end as u64;
    out[3] = raw.start as u64;
    out[4] = raw.end as u64;
}

pub fn tell_bounds(bounds: Span, out: &mut [u64; 2])
    ensures { out.new ≡ bounds_after bounds out.old }
{
    out[0] = bounds.start as u64;
    out[1] = bounds.end as u64;
}

pub fn tell_delta(answer: Result<i32, Refusal>, out: &mut [i32; 1]) -> u64
    ensures value { result ≡ returned (Deltas.answer answer) }
    ensures out_after { out.new ≡ delta_after (Deltas.answer answer) out.old }
{
    match answer {
        Ok(d) => {
            out[0] = d;
            0
        }
        Err(r) => answers::refusal_number(r),
    }
}

// ---- values

// The token that C names by its kind's number and its raw bounds.
pub fn token_with(kind: u64, start: usize, end: usize) -> Token
    ensures { result ≡ token_with kind start end }
{
    let raw = Span { start, end };
    Token {
        kind: tokens::kind_of(kind),
        span: raw,
        raw,
    }
}

// What C is told of a value: its case, and the number, the double's bits or the bounds that the case holds, else 0.
#[derive(Clone, Copy)]
pub struct ValueFields {
    pub tag: u64,
    pub integer: i32,
    pub bits: u64,
    pub text: Span,
}

fn value_with(tag: u64, integer: i32, bits: u64, text: Span) -> ValueFields
    ensures { result ≡ value_with tag integer bits text }
{
    ValueFields {
        tag,
        integer,
        bits,
        text,
    }
}

fn fields_of(v: PushValue) -> ValueFields
    ensures { result ≡ fields_of v }
{
    let nothing = Span { start: 0, end: 0 };
    match v {
        PushValue::Null => value_with(0, 0, 0, nothing),
        PushValue::Undefined => value_with(1, 0, 0, nothing),
        PushValue::String(s) => value_with(2, 0, 0, s),
        PushValue::Integer(n) => value_with(3, n, 0, nothing),
        PushValue::Float(x) => value_with(4, 0, values::bits_of(x), nothing),
        PushValue::True => value_with(5, 0, 0, nothing),
        PushValue::False => value_with(6, 0, 0, nothing),
        PushValue::Register(n) => value_with(7, n as i32, 0, nothing),
        PushValue::Constant(n) => value_with(8, n as i32, 0, nothing),
        PushValue::Long(s) => value_with(9, 0, 0, s),
    }
}

pub fn tell_value(
    answer: Result<PushValue, Refusal>,
    integer: &mut [i32; 1],
    out: &mut [u64; 4],
) -> u64
    ensures value { result ≡ returned (Values.answer answer) }
    ensures integer_after { integer.new ≡ integer_after (Values.answer answer) integer.old }
    ensures out_after { out.new ≡ value_after (Values.answer answer) out.old }
{
    match answer {
        Ok(v) => {
            let fields = fields_of(v);
            let bounds = fields.text;
            let number = fields.integer;
            integer[0] = number;
            out[0] = fields.tag;
            out[1] = fields.bits;
            out[2] = bounds.start as u64;
            out[3] = bounds.end as u64;
            0
        }
        Err(r) => answers::refusal_number(r),
    }
}

// ---- names and places

// The name of the action of a number, a part of the letters; empty where no action has the number.
fn name_of(letters: &[u8], action: usize) -> &[u8]
    requires { letters.now ≡ all_letters }
    ensures { result.now ≡ name_of action }
{
    if 100 <= action {
        return &letters[0..0];
    }
    words::spelling(letters, actions::action_at(action))
}

// All of a word or nothing of it: a part could be another action's name.
fn put_word(word: &[u8], name: &mut [u8]) -> usize
    ensures value { result ≡ length word.now }
    ensures name_after { name.new ≡ word_after word.now name.old }
{
    if name.len() < word.len() {
        return word.len();
    }
    name[..word.len()].copy_from_slice(word);
    word.len()
}

pub fn tell_name(action: usize, name: &mut [u8]) -> usize
    ensures value { result ≡ length (name_of action) }
    ensures name_after { name.new ≡ word_after (name_of action) name.old }
{
    let letters = words::LETTERS;
    put_word(name_of(&letters, action), name)
}

pub fn tell_place(text: &[u8], at: usize, out: &mut [u64; 2])
    ensures { out.new ≡ place_after text.now at out.old }
{
    let line = places::line_at(text, at);
    let column = places::column_at(text, at);
    out[0] = line as u64;
    out[1] = column as u64;
}
