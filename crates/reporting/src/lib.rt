// What a program says of a text: how much was read, and what it warns of; or where it is refused, what that means, and the line with a
// mark under the place.
#![tactic(auto)]

mod uncoded;
mod warning;

use answers::Refusal;
use expected::{Lexed, start_of};
use printing::{Printer, print_number, print_text};
pub use warning::{print_warnings, put_lost};

pub fn print_name(to: Printer, name: &[u8]) {
    if files::is_standard_input(name) {
        to.text(b"(standard input)");
    } else {
        views::print_name(to, name);
    }
}

// So many of a thing.
pub fn print_count(rt: HostRuntime, n: u64, what: &[u8]) {
    print_number(rt, n);
    print_text(rt, b" ");
    print_text(rt, what);
    if n != 1 {
        print_text(rt, b"s");
    }
}

pub fn print_counts(
    rt: HostRuntime,
    actions: usize,
    operands: usize,
    levels: usize,
    labels: usize,
) {
    print_count(rt, actions as u64, b"action");
    print_text(rt, b", ");
    print_count(rt, operands as u64, b"operand");
    print_text(rt, b", ");
    print_count(rt, levels as u64, b"level");
    print_text(rt, b", ");
    print_count(rt, labels as u64, b"label");
    print_text(rt, b"\n");
}

// The byte to mark, where the place of a refusal is one in the text: rows 6 and 7 name a token, 10 and 11 an action.
fn byte_of(of: Lexed, r: Refusal) -> Option<usize> {
    match r {
        Refusal::NotUtf8(p) | Refusal::LoneQuote(p) | Refusal::CutCharacter(p) => Some(p),
        Refusal::NotGrammatical(k) => Some(start_of(of, expected::marked_token(of, k))),
        Refusal::TooDeep(k) => Some(start_of(of, k)),
        Refusal::NoLabel(k) => Some(start_of(of, uncoded::label_token(of.tokens, k))),
        Refusal::Uncodable(k) => Some(start_of(of, uncoded::name_token(of.tokens, k))),
        _ => None,
    }
}

fn print_meaning(to: Printer, of: Lexed, r: Refusal) {
    let words = match r {
        Refusal::TooLong => "longer than 65,536 bytes",
        Refusal::NotUtf8(_) => "not UTF-8",
        Refusal::LoneQuote(_) => "this quote opens a string that is not closed",
        Refusal::CutCharacter(_) => {
            "this string is not closed, and ends in a character over one byte"
        }
        Refusal::TokenTableShort(_) => "too many tokens for this program",
        Refusal::NotGrammatical(k) => return expected::print_expected(to, of, k),
        Refusal::NoValue => "no value",
        Refusal::TooDeep(_) => "more than 64 blocks inside one another",
        Refusal::TableShort(_) => "too many entries for this program",
        Refusal::Undetermined => "an undetermined stack effect",
        Refusal::NoLabel(_) => {
            "this level has no such label: a jump reaches labels of its own level only"
        }
        Refusal::Uncodable(k) => return uncoded::print_uncodable(to, of.tokens, k),
        Refusal::OutputShort(_) => "too many bytes for this program",
        // reading and export give no other
        _ => "",
    };
    to.text(words.as_bytes());
}

// `:line:column`.
fn print_place(to: Printer, line: usize, column: usize) {
    to.text(b":");
    to.number(line as u64);
    to.text(b":");
    to.number(column as u64);
}

// What of a text may be shown: where it is not UTF-8, the part before that.
fn shown<'a>(text: &'a [u8], r: Refusal) -> &'a [u8] {
    match r {
        Refusal::NotUtf8(p) => views::part(text, 0, p),
        _ => text,
    }
}

fn print_number_of(to: Printer, r: Refusal, with_place: bool) {
    to.text(b": refused ");
    to.number(answers::refusal_number(r));
    if with_place {
        to.text(b" at ");
        to.number(answers::refusal_place(r) as u64);
    }
    to.text(b": ");
}

// One line that says what is wrong, and two that show it where it has a place.
fn print_report(to: Printer, name: &[u8], of: Lexed, r: Refusal, with_place: bool) {
    let at = byte_of(of, r);
    print_name(to, name);
    if let Some(at) = at {
        print_place(
            to,
            places::line_at(of.text, at),
            places::column_at(of.text, at),
        );
    }
    print_number_of(to, r, with_place);
    print_meaning(to, of, r);
    to.text(b"\n");
    if let Some(at) = at {
        views::print_view(to, shown(of.text, r), at);
    }
}

// A refusal leaves the token table as it was, and its place may be a token or an action: the text is lexed again.
fn report(to: Printer, name: &[u8], text: &[u8], tokens: &mut [u64], r: Refusal, with_place: bool) {
    let n = lexer::lex(text, tokens).unwrap_or(0);
    let tokens = lookups::words_from(tokens, 0, n);
    print_report(to, name, Lexed { text, tokens }, r, with_place);
}

// Reports a refused text.
pub fn print_refused(to: Printer, name: &[u8], text: &[u8], tokens: &mut [u64], r: Refusal) {
    report(to, name, text, tokens, r, false);
}

// The same with the place as the call answers it, as an export is refused.
pub fn print_refused_at(to: Printer, name: &[u8], text: &[u8], tokens: &mut [u64], r: Refusal) {
    report(to, name, text, tokens, r, true);
}
