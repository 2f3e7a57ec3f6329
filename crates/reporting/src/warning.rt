// Warnings of a text that was read: a string without its closing quote loses its last letter.
ghost use Rattle.std.specs.Prelude.{◌≡◌};
ghost use Rattle.places.specs.Places.{line_at};

use crate::{print_name, print_place};
use columns::Columns;
use printing::Printer;
use scanner::byte_at;
use tokens::Token;

// ---- what is lost

// The place of the letter: the raw text of a string ends before it.
fn lost_at(token: Token) -> usize {
    token.raw.end
}

// A control character must reach no terminal: its number stands for it.
fn put_letter(out: &mut Columns, b: u8) {
    match b {
        32..=126 => out.put_text(&[b'\'', b, b'\'']),
        _ => {
            out.put_text(b"0x");
            out.put_pair(b);
        }
    }
}

// What the string of an unclosed token lost. A reading has none that ends in a character over one byte. Where lines end with a carriage
// return and a line feed, the string takes in the first of these, and no letter is lost.
pub fn put_lost(out: &mut Columns, text: &[u8], token: Token) {
    let b = byte_at(text, lost_at(token));
    if b == b'\r' {
        out.put_text(b"the carriage return at its end is lost, and no letter");
        return;
    }
    out.put_text(b"the last letter, ");
    put_letter(out, b);
    out.put_text(b", is lost");
}

// ---- a warning

fn print_lost(rt: HostRuntime, text: &[u8], token: Token) {
    let mut out = Columns::new(rt);
    put_lost(&mut out, text, token);
    out.finish();
}

fn print_warning(rt: HostRuntime, name: &[u8], text: &[u8], token: Token, line: usize) {
    let at = lost_at(token);
    let to = Printer::Output(rt);
    print_name(to, name);
    print_place(to, line, places::column_at(text, at));
    to.text(b": warning: no closing quote: ");
    print_lost(rt, text, token);
    to.text(b"\n");
    views::print_view(to, text, at);
}

// ---- all of them

// A byte and its line.
#[derive(Clone, Copy)]
struct Place {
    byte: usize,
    line: usize,
}

// Warns of the string of a token; only what lies between it and the warning before is gone through.
fn warn_behind(rt: HostRuntime, name: &[u8], text: &[u8], token: Token, p: Place) -> Place
    requires { p.line ≡ line_at text.now p.byte }
    ensures { result.line ≡ line_at text.now result.byte }
{
    let byte = lost_at(token);
    let line = lookups::line_from(text, p.byte, p.line, byte);
    print_warning(rt, name, text, token, line);
    Place { byte, line }
}

// Warns of each unclosed string among so many operands, in their order, and answers how many there are.
pub fn print_warnings(
    rt: HostRuntime,
    name: &[u8],
    text: &[u8],
    tokens: &[u64],
    operands: &[u64],
    count: usize,
) -> u64 {
    let mut p = Place { byte: 0, line: 1 };
    let mut n: u64 = 0;
    for word in lookups::words_from(operands, 0, count) {
        let operand = entries::operand_of(*word);
        if operand.unclosed {
            p = warn_behind(rt, name, text, entries::token_in(tokens, operand.token), p);
            n += 1;
        }
    }
    n
}
