// The readers of levels, actions and blocks, by the names of the Rust's parser/actions.rs. They call one another: the remaining
// tokens fall, and no more than `room` blocks open inside one another. What they read they write into a log of events.
#![tactic(auto)]

ghost use Rattle.std.specs.Prelude.{◌≡◌, ◌≤◌, ◌<◌, ◌+◌, length};
ghost use Rattle.classes.specs.Lexemes.{Sound, kind_at};
ghost use Rattle.operands.specs.Contract.{Fine};
ghost use Rattle.parser.specs.Parsing.{EndRead, ColonRead, LabelRead, NewlinesRead, HandlerRead, TargetRead, past_target, move_to, GiveAsked, GiveRead, TargetBefore, BlockRead, LastBlockRead, TryRead, HandlersRead, LastRead, BlocksRead, NotClosing, Plain, ItemRead, LevelRead};
ghost use Rattle.parser.specs.Parsed.{Parsed};

use actions::action_number;
use classes::{Class, fits_at, is_kind_at};
use events::{BlockKind, Event, block_number};
use operands::{At, Unread, log_event, logged, operands, passed};
use shapes::{Shape, shape_of};
use tokens::{TokenKind, token_of};

// What follows a block of a Try: no newline, or, behind all newlines, the place of another item or of a handler's word.
#[derive(Clone, Copy)]
pub enum Handler {
    NoNewline,
    Item(usize),
    Catch(usize),
    Finally(usize),
}

// ---- leaves

// The newline behind an action, or the end of the text.
fn end_of_action(text: &[u8], s: &[u64], c: At) -> Result<At, Unread>
    requires { Fine text.now s.now c }
    ensures { EndRead text.now s.now c result }
{
    if c.at < s.len() {
        if is_kind_at(s, c.at, TokenKind::Newline) {
            Ok(passed(c))
        } else {
            Err(Unread::Bad(c.at))
        }
    } else {
        Ok(c)
    }
}

fn colon(text: &[u8], s: &[u64], c: At) -> Result<At, Unread>
    requires { Fine text.now s.now c }
    ensures { ColonRead text.now s.now c result }
{
    if is_kind_at(s, c.at, TokenKind::Colon) {
        Ok(passed(c))
    } else {
        Err(Unread::Bad(c.at))
    }
}

// A label: its name, which stands at c, and the colon.
fn label(text: &[u8], s: &[u64], events: &mut [u64], c: At) -> Result<At, Unread>
    requires fine { Fine text.now s.now c }
    requires at_value { kind_at s.now c.at ≡ 7 }
    ensures { LabelRead text.now s.now events.old events.new c result }
{
    log_event(events, c.events, Event::Label(c.at as u64));
    colon(text, s, logged(c))
}

// The first place from `at` on that has no newline.
fn newlines(text: &[u8], s: &[u64], at: usize) -> usize
    requires { at ≤ length s.now }
    ensures { NewlinesRead text.now s.now at result }
{
    for p in at..s.len() {
        if !is_kind_at(s, p, TokenKind::Newline) {
            return p;
        }
    }
    s.len()
}

// The newlines behind a block of a Try, and the one token behind them.
fn next_handler(text: &[u8], s: &[u64], c: At) -> Handler
    requires { Fine text.now s.now c }
    ensures { HandlerRead text.now s.now c result }
{
    if !is_kind_at(s, c.at, TokenKind::Newline) {
        return Handler::NoNewline;
    }
    let q = newlines(text, s, c.at + 1);
    if is_kind_at(s, q, TokenKind::Catch) {
        return Handler::Catch(q);
    }
    if is_kind_at(s, q, TokenKind::Finally) {
        return Handler::Finally(q);
    }
    Handler::Item(q)
}

// A string or a register before the block of a Try.
fn try_target(text: &[u8], s: &[u64], c: At) -> Option<usize>
    requires { Fine text.now s.now c }
    ensures { TargetRead text.now s.now c result }
{
    if fits_at(text, s, c.at, Class::Target) {
        Some(c.at)
    } else {
        None
    }
}

fn past_target(c: At, a: Option<usize>) -> At
    requires { c.at ≤ 65536 }
    ensures { result ≡ past_target c a }
{
    match a {
        None => c,
        Some(_) => passed(c),
    }
}

fn move_to(c: At, q: usize) -> At
    ensures { result ≡ move_to c q }
{
    At {
        at: q,
        events: c.events,
    }
}

// The target as an operand: a catch block follows.
fn give_target(events: &mut [u64], c: At, a: Option<usize>) -> At
    requires { GiveAsked c a }
    ensures { GiveRead events.old events.new c a result }
{
    match a {
        None => c,
        Some(t) => {
            log_event(events, c.events, Event::Operand(t as u64));
            At {
                at: c.at,
                events: c.events + 1,
            }
        }
    }
}

// ---- the cycle

// The labels and actions of a level, up to the brace that closes it or the end of the text.
#[cycle(parser)]
fn actions(
    text: &[u8],
    s: &[u64],
    events: &mut [u64],
    c: At,
    room: usize,
    inside: bool,
) -> Result<At, Unread>
    requires { Fine text.now s.now c }
    ensures { LevelRead text.now s.now events.old events.new c room inside result }
{
    let mut p = c;
    while p.at < s.len() {
        if is_kind_at(s, p.at, TokenKind::CloseBrace) {
            if inside {
                log_event(events, p.events, Event::Closed);
                return Ok(logged(p));
            }
            return Err(Unread::Bad(p.at));
        }
        p = item(text, s, events, p, room)?;
    }
    if inside {
        Err(Unread::Bad(p.at))
    } else {
        Ok(p)
    }
}

// A newline, a label, or an action with what must follow it.
#[cycle(parser)]
fn item(text: &[u8], s: &[u64], events: &mut [u64], c: At, room: usize) -> Result<At, Unread>
    requires fine { Fine text.now s.now c }
    requires at_in_bounds { c.at < length s.now }
    requires not_closing { NotClosing s.now c }
    ensures { ItemRead text.now s.now events.old events.new c room result }
{
    if is_kind_at(s, c.at, TokenKind::Newline) {
        return Ok(passed(c));
    }
    if is_kind_at(s, c.at, TokenKind::Identifier) {
        return label(text, s, events, c);
    }
    action(text, s, events, c, room)
}

// An action, by the name that its word's kind carries, and what must follow it.
#[cycle(parser)]
fn action(text: &[u8], s: &[u64], events: &mut [u64], c: At, room: usize) -> Result<At, Unread>
    requires fine { Fine text.now s.now c }
    requires at_in_bounds { c.at < length s.now }
    requires plain { Plain s.now c }
    ensures { ItemRead text.now s.now events.old events.new c room result }
{
    let TokenKind::ActionName(name) = token_of(s[c.at]).kind else {
        return Err(Unread::Bad(c.at));
    };
    log_event(events, c.events, Event::Action(action_number(name) as u64));
    let w = shape_of(name);
    let p = operands(text, s, events, logged(c), w)?;
    blocks(text, s, events, p, room, w)
}

// The blocks behind an action's operands, and the action's end.
#[cycle(parser)]
fn blocks(
    text: &[u8],
    s: &[u64],
    events: &mut [u64],
    c: At,
    room: usize,
    w: Shape,
) -> Result<At, Unread>
    requires { Fine text.now s.now c }
    ensures { BlocksRead w text.now s.now events.old events.new c room result }
{
    match w {
        Shape::Function | Shape::Function2 | Shape::Block => last_block(
            text,
            s,
            events,
            c,
            room,
            BlockKind::Body,
        ),
        Shape::Try => try_catch(text, s, events, c, room),
        _ => end_of_action(text, s, c),
    }
}

// A block that no other block of its action can follow.
#[cycle(parser)]
fn last_block(
    text: &[u8],
    s: &[u64],
    events: &mut [u64],
    c: At,
    room: usize,
    b: BlockKind,
) -> Result<At, Unread>
    requires { Fine text.now s.now c }
    ensures { LastBlockRead b text.now s.now events.old events.new c room result }
{
    let p = block(text, s, events, c, room, b)?;
    end_of_action(text, s, p)
}

#[cycle(parser)]
fn block(
    text: &[u8],
    s: &[u64],
    events: &mut [u64],
    c: At,
    room: usize,
    b: BlockKind,
) -> Result<At, Unread>
    requires { Fine text.now s.now c }
    ensures { BlockRead b text.now s.now events.old events.new c room result }
{
    if !is_kind_at(s, c.at, TokenKind::OpenBrace) {
        return Err(Unread::Bad(c.at));
    }
    if room == 0 {
        return Err(Unread::Deep(c.at));
    }
    log_event(events, c.events, Event::Opened(block_number(b)));
    actions(text, s, events, logged(c), room - 1, true)
}

// The blocks of a Try, with its target, and its end.
#[cycle(parser)]
fn try_catch(text: &[u8], s: &[u64], events: &mut [u64], c: At, room: usize) -> Result<At, Unread>
    requires { Fine text.now s.now c }
    ensures { TryRead text.now s.now events.old events.new c room result }
{
    let a = try_target(text, s, c);
    let d = past_target(c, a);
    let p = block(text, s, events, d, room, BlockKind::Try)?;
    handlers(text, s, events, p, room, a)
}

// What follows the try block: a catch block, to which the target belongs, and what follows that.
#[cycle(parser)]
fn handlers(
    text: &[u8],
    s: &[u64],
    events: &mut [u64],
    c: At,
    room: usize,
    a: Option<usize>,
) -> Result<At, Unread>
    requires fine { Fine text.now s.now c }
    requires target_before { TargetBefore c a }
    ensures { HandlersRead a text.now s.now events.old events.new c room result }
{
    let x = next_handler(text, s, c);
    let Handler::Catch(q) = x else {
        return last_handler(text, s, events, c, room, x);
    };
    let e = move_to(c, q + 1);
    let f = give_target(events, e, a);
    let p = block(text, s, events, f, room, BlockKind::Catch)?;
    let z = next_handler(text, s, p);
    last_handler(text, s, events, p, room, z)
}

// A finally block and the action's end, or the end alone. A catch block cannot follow any more.
#[cycle(parser)]
fn last_handler(
    text: &[u8],
    s: &[u64],
    events: &mut [u64],
    c: At,
    room: usize,
    x: Handler,
) -> Result<At, Unread>
    requires fine { Fine text.now s.now c }
    requires handler_read { HandlerRead text.now s.now c x }
    ensures { LastRead x text.now s.now events.old events.new c room result }
{
    match x {
        Handler::NoNewline => end_of_action(text, s, c),
        Handler::Item(q) => Ok(move_to(c, q)),
        Handler::Finally(q) => {
            let e = move_to(c, q + 1);
            last_block(text, s, events, e, room, BlockKind::Finally)
        }
        Handler::Catch(q) => Err(Unread::Bad(q)),
    }
}

// ---- the whole list

// Reads the tokens of a text, and logs what they are.
pub fn parse(text: &[u8], s: &[u64], events: &mut [u64]) -> Result<At, Unread>
    requires sound { Sound text.now s.now }
    requires s_in_bounds { length s.now ≤ length events.old }
    ensures { Parsed text.now s.now events.old events.new result }
{
    let c = At { at: 0, events: 0 };
    actions(text, s, events, c, 64, false)
}
