// An operand as it was typed, and what it became.
use crate::layout::{FACTS, put_head};
use crate::typed::put_typed;
use columns::Columns;
use entries::{Action, Operand};
use level_trees::Source;
use names::ActionName;
use shapes::Shape;
use tokens::{Token, raw_text};
use values::PushValue;

// Its bytes in hexadecimal, so that what cannot be seen is seen.
fn put_string(out: &mut Columns, bytes: &[u8]) {
    out.put_text(b"string of ");
    out.put_count(bytes.len(), b"byte");
    if bytes.len() != 0 {
        out.put_byte(b':');
        out.put_bytes(bytes);
    }
}

fn put_named(out: &mut Columns, what: &[u8], n: u64) {
    out.put_text(what);
    out.put_number(n);
}

fn put_whole(out: &mut Columns, n: i32) {
    out.put_text(b"integer ");
    out.put_integer(i64::from(n));
}

fn put_double(out: &mut Columns, x: f64) {
    out.put_text(b"double ");
    out.put_bits(values::bits_of(x));
}

fn put_push_value(out: &mut Columns, raw: &[u8], v: PushValue) {
    match v {
        PushValue::Null => out.put_text(b"null"),
        PushValue::Undefined => out.put_text(b"undefined"),
        PushValue::String(_) => put_string(out, raw),
        PushValue::Integer(n) => put_whole(out, n),
        PushValue::Float(x) => put_double(out, x),
        PushValue::True => out.put_text(b"true"),
        PushValue::False => out.put_text(b"false"),
        PushValue::Register(n) => put_named(out, b"register ", n as u64),
        PushValue::Constant(n) => put_named(out, b"constant ", n as u64),
        PushValue::Long(_) => out.put_text(b"Long, kept as typed"),
    }
}

// In a reading every operand that is no label has a value.
fn put_value(out: &mut Columns, text: &[u8], token: Token) {
    match values::value(text, token) {
        Ok(p) => put_push_value(out, raw_text(text, token), p),
        Err(_) => out.put_text(b"no value"),
    }
}

fn put_target(out: &mut Columns, t: Option<usize>) {
    match t {
        Some(position) => put_named(out, b"label at position ", position as u64),
        None => out.put_text(b"label not in this level"),
    }
}

// An If's or a Jump's operand is a label, whatever it reads as elsewhere.
fn takes_label(a: ActionName) -> bool {
    matches!(shapes::shape_of(a), Shape::Identifier)
}

fn put_meaning(out: &mut Columns, of: Source, a: Action, token: Token) {
    if takes_label(a.name) {
        let name = raw_text(of.text, token);
        put_target(
            out,
            lookups::target_of(of.text, of.tokens, of.labels, a.level, name),
        );
    } else {
        put_value(out, of.text, token);
    }
}

// What a string without its closing quote lost.
fn put_mark(out: &mut Columns, text: &[u8], token: Token, unclosed: bool) {
    if unclosed {
        out.put_text(b", not closed: ");
        reporting::put_lost(out, text, token);
    }
}

// The number of an operand is that within its action, from 1.
pub fn put_operand(out: &mut Columns, of: Source, a: Action, number: usize, operand: Operand) {
    let token = entries::token_in(of.tokens, operand.token);
    put_head(out, b"operand ", number);
    put_typed(out, of.text, token);
    out.put_column(FACTS);
    put_meaning(out, of, a, token);
    put_mark(out, of.text, token, operand.unclosed);
    out.put_byte(b'\n');
}
