// The readers of an action's operands, by the names of the Rust's parser/actions.rs: functions over a token index by value. What
// they read they write into a log of events, from which the tables are made.
#![tactic(auto)]

ghost use Rattle.std.specs.Prelude.{◌≡◌, true, ◌≤◌, set, Ok};
ghost use Rattle.classes.specs.Lexemes.{fits_at};
ghost use Rattle.events.specs.Log.{Holdable, log_word, Holds, word_of};
ghost use Rattle.operands.specs.Log.{passed, logged};
ghost use Rattle.operands.specs.Contract.{Fine, OperandRead, CommaRead, NextRead, TwoRead, ThreeRead, RepeatRead, PairRead, PairsRead, NameRead, CountRead, NamesRead, FunctionRead, FlagsRead, FlagsPairsRead, RegistersRead, Function2Read, FrameRead, ValuesRead, ListRead, OperandsRead};

use classes::{Class, count_at, fits_at, is_count, is_kind_at};
use events::{Event, event_word, log_word};
use shapes::Shape;
use tokens::TokenKind;

// The next token, and how many events the log holds.
#[derive(Clone, Copy)]
pub struct At {
    pub at: usize,
    pub events: usize,
}

// Refusal 6 or 7 at a token: outside the grammar, or too deep.
#[derive(Clone, Copy, PartialEq, Eq)]
pub enum Unread {
    Bad(usize),
    Deep(usize),
}

// ---- the log

// Writes a word, if the log has that place.
fn put_word(events: &mut [u64], n: usize, word: u64)
    ensures { events.new ≡ set events.old n word }
{
    if n < events.len() {
        events[n] = word;
    }
}

// Writes an event by the number of its kind and what it holds, if the log has that place.
pub fn write_event(events: &mut [u64], n: usize, kind: u64, holds: u64)
    requires kind_bound { kind ≤ 4 }
    requires holdable { Holdable holds }
    ensures { events.new ≡ set events.old n (log_word kind holds) }
{
    put_word(events, n, log_word(kind, holds));
}

// Writes an event, if the log has that place.
pub fn log_event(events: &mut [u64], n: usize, event: Event)
    requires { Holds event }
    ensures { events.new ≡ set events.old n (word_of event) }
{
    put_word(events, n, event_word(event));
}

// Past a token that is no event.
pub fn passed(c: At) -> At
    requires { c.at ≤ 65536 }
    ensures { result ≡ passed c }
{
    At {
        at: c.at + 1,
        events: c.events,
    }
}

// Past a token that is one.
pub fn logged(c: At) -> At
    requires at_bound { c.at ≤ 65536 }
    requires events_bound { c.events ≤ 65536 }
    ensures { result ≡ logged c }
{
    At {
        at: c.at + 1,
        events: c.events + 1,
    }
}

// ---- operands: the log is lent apart, since readers of a struct of all three would also have to say that it stays the same log

// An operand that is known to fit.
fn given(text: &[u8], s: &[u64], events: &mut [u64], c: At, m: Class) -> At
    requires fine { Fine text.now s.now c }
    requires at_value { fits_at m text.now s.now c.at ≡ true }
    ensures { OperandRead m text.now s.now events.old events.new c (Ok result) }
{
    log_event(events, c.events, Event::Operand(c.at as u64));
    logged(c)
}

fn operand(text: &[u8], s: &[u64], events: &mut [u64], c: At, m: Class) -> Result<At, Unread>
    requires { Fine text.now s.now c }
    ensures { OperandRead m text.now s.now events.old events.new c result }
{
    if fits_at(text, s, c.at, m) {
        Ok(given(text, s, events, c, m))
    } else {
        Err(Unread::Bad(c.at))
    }
}

fn comma(text: &[u8], s: &[u64], c: At) -> Result<At, Unread>
    requires { Fine text.now s.now c }
    ensures { CommaRead text.now s.now c result }
{
    if is_kind_at(s, c.at, TokenKind::Comma) {
        Ok(passed(c))
    } else {
        Err(Unread::Bad(c.at))
    }
}

// A comma and an operand.
fn next_operand(text: &[u8], s: &[u64], events: &mut [u64], c: At, m: Class) -> Result<At, Unread>
    requires { Fine text.now s.now c }
    ensures { NextRead m text.now s.now events.old events.new c result }
{
    let d = comma(text, s, c)?;
    operand(text, s, events, d, m)
}

fn two(text: &[u8], s: &[u64], events: &mut [u64], c: At, m: Class, n: Class) -> Result<At, Unread>
    requires { Fine text.now s.now c }
    ensures { TwoRead m n text.now s.now events.old events.new c result }
{
    let d = operand(text, s, events, c, m)?;
    next_operand(text, s, events, d, n)
}

fn three(
    text: &[u8],
    s: &[u64],
    events: &mut [u64],
    c: At,
    m: Class,
    n: Class,
    k: Class,
) -> Result<At, Unread>
    requires { Fine text.now s.now c }
    ensures { ThreeRead m n k text.now s.now events.old events.new c result }
{
    let d = two(text, s, events, c, m, n)?;
    next_operand(text, s, events, d, k)
}

// n times a comma and an operand.
fn repeat(text: &[u8], s: &[u64], events: &mut [u64], c: At, m: Class, n: u64) -> Result<At, Unread>
    requires { Fine text.now s.now c }
    ensures { RepeatRead m n text.now s.now events.old events.new c result }
{
    let mut p = c;
    for _ in 0..n {
        p = next_operand(text, s, events, p, m)?;
    }
    Ok(p)
}

// A comma, a register, a comma and a name.
fn pair(text: &[u8], s: &[u64], events: &mut [u64], c: At) -> Result<At, Unread>
    requires { Fine text.now s.now c }
    ensures { PairRead text.now s.now events.old events.new c result }
{
    let d = next_operand(text, s, events, c, Class::U8)?;
    next_operand(text, s, events, d, Class::String)
}

// `repeat` with another step: as a closure the step would need clauses longer than this loop.
fn pairs(text: &[u8], s: &[u64], events: &mut [u64], c: At, n: u64) -> Result<At, Unread>
    requires { Fine text.now s.now c }
    ensures { PairsRead n text.now s.now events.old events.new c result }
{
    let mut p = c;
    for _ in 0..n {
        p = pair(text, s, events, p)?;
    }
    Ok(p)
}

// ---- functions

// A function's name and the comma behind it.
fn function_name(text: &[u8], s: &[u64], events: &mut [u64], c: At) -> Result<At, Unread>
    requires { Fine text.now s.now c }
    ensures { NameRead text.now s.now events.old events.new c result }
{
    let d = operand(text, s, events, c, Class::String)?;
    comma(text, s, d)
}

// The count of a function's parameters.
fn count(text: &[u8], s: &[u64], events: &mut [u64], c: At) -> Result<At, Unread>
    requires { Fine text.now s.now c }
    ensures { CountRead text.now s.now events.old events.new c result }
{
    if is_count(text, s, c.at) {
        log_event(events, c.events, Event::Operand(c.at as u64));
        Ok(logged(c))
    } else {
        Err(Unread::Bad(c.at))
    }
}

// The count and that many names.
fn names(text: &[u8], s: &[u64], events: &mut [u64], c: At) -> Result<At, Unread>
    requires { Fine text.now s.now c }
    ensures { NamesRead text.now s.now events.old events.new c result }
{
    let n = count_at(text, s, c.at);
    let d = count(text, s, events, c)?;
    repeat(text, s, events, d, Class::String, n)
}

// What stands before the block of a DefineFunction.
fn define_function(text: &[u8], s: &[u64], events: &mut [u64], c: At) -> Result<At, Unread>
    requires { Fine text.now s.now c }
    ensures { FunctionRead text.now s.now events.old events.new c result }
{
    let d = function_name(text, s, events, c)?;
    names(text, s, events, d)
}

// The register count and the nine flags.
fn flags(text: &[u8], s: &[u64], events: &mut [u64], c: At) -> Result<At, Unread>
    requires { Fine text.now s.now c }
    ensures { FlagsRead text.now s.now events.old events.new c result }
{
    let d = next_operand(text, s, events, c, Class::U8)?;
    repeat(text, s, events, d, Class::Bool, 9)
}

fn flags_and_pairs(text: &[u8], s: &[u64], events: &mut [u64], c: At, n: u64) -> Result<At, Unread>
    requires { Fine text.now s.now c }
    ensures { FlagsPairsRead n text.now s.now events.old events.new c result }
{
    let d = flags(text, s, events, c)?;
    pairs(text, s, events, d, n)
}

// The count, the flags, and that many pairs of a register and a name.
fn registers(text: &[u8], s: &[u64], events: &mut [u64], c: At) -> Result<At, Unread>
    requires { Fine text.now s.now c }
    ensures { RegistersRead text.now s.now events.old events.new c result }
{
    let n = count_at(text, s, c.at);
    let d = count(text, s, events, c)?;
    flags_and_pairs(text, s, events, d, n)
}

// What stands before the block of a DefineFunction2.
fn define_function_2(text: &[u8], s: &[u64], events: &mut [u64], c: At) -> Result<At, Unread>
    requires { Fine text.now s.now c }
    ensures { Function2Read text.now s.now events.old events.new c result }
{
    let d = function_name(text, s, events, c)?;
    registers(text, s, events, d)
}

// ---- other shapes

// Two bools, and a u16 if the first is true.
fn goto_frame_2(text: &[u8], s: &[u64], events: &mut [u64], c: At) -> Result<At, Unread>
    requires { Fine text.now s.now c }
    ensures { FrameRead text.now s.now events.old events.new c result }
{
    let has_bias = is_kind_at(s, c.at, TokenKind::True);
    let d = two(text, s, events, c, Class::Bool, Class::Bool)?;
    if has_bias {
        next_operand(text, s, events, d, Class::U16)
    } else {
        Ok(d)
    }
}

// What follows the first value of a list.
fn more_values(text: &[u8], s: &[u64], events: &mut [u64], c: At, m: Class) -> Result<At, Unread>
    requires { Fine text.now s.now c }
    ensures { ValuesRead m text.now s.now events.old events.new c result }
{
    let mut p = c;
    while is_kind_at(s, p.at, TokenKind::Comma) {
        p = operand(text, s, events, passed(p), m)?;
    }
    Ok(p)
}

// Zero or more values parted by commas.
fn values(text: &[u8], s: &[u64], events: &mut [u64], c: At, m: Class) -> Result<At, Unread>
    requires { Fine text.now s.now c }
    ensures { ListRead m text.now s.now events.old events.new c result }
{
    if fits_at(text, s, c.at, m) {
        let d = given(text, s, events, c, m);
        more_values(text, s, events, d, m)
    } else {
        Ok(c)
    }
}

// The operands of an action, up to its block.
pub fn operands(text: &[u8], s: &[u64], events: &mut [u64], c: At, w: Shape) -> Result<At, Unread>
    requires { Fine text.now s.now c }
    ensures { OperandsRead w text.now s.now events.old events.new c result }
{
    match w {
        Shape::Nothing | Shape::Block | Shape::Try => Ok(c),
        Shape::Values => values(text, s, events, c, Class::Value),
        Shape::Strings => values(text, s, events, c, Class::String),
        Shape::StringString => two(text, s, events, c, Class::String, Class::String),
        Shape::BoolBoolU8 => three(text, s, events, c, Class::Bool, Class::Bool, Class::U8),
        Shape::U16 => operand(text, s, events, c, Class::U16),
        Shape::BoolBoolMaybeU16 => goto_frame_2(text, s, events, c),
        Shape::String => operand(text, s, events, c, Class::String),
        Shape::Identifier => operand(text, s, events, c, Class::Identifier),
        Shape::U8 => operand(text, s, events, c, Class::U8),
        Shape::U16U8 => two(text, s, events, c, Class::U16, Class::U8),
        Shape::Function => define_function(text, s, events, c),
        Shape::Function2 => define_function_2(text, s, events, c),
    }
}
