// Replays the answers that the Rust gave on a fixed list of texts (data/, made by `compare/run ORACLE sample`).
// A record is numbers of four bytes, low byte first: the text's length; 0 where it has tokens, 2 where it is not UTF-8, 3
// where the Rust panics; the count of tokens or of valid bytes; for each token its kind's number, span and raw bounds.
// Then comes the text. Whether a string was closed is left out.
#![tactic(auto)]

ghost use Rattle.std.specs.Prelude.{◌<◌, ◌≤◌, length};

use answers::Refusal;
use printing::{print_number, print_text};
use std::io;

// The number at an index, or 0 where the list ends before it does.
fn number_at(list: &[u8], at: usize) -> u64 {
    match list.get(at..) {
        Some([a, b, c, d, ..]) => u64::from(u32::from_le_bytes([*a, *b, *c, *d])),
        _ => 0,
    }
}

// Whether the token of a word is the one that the list starts with: numbers, with a String's kind as the Rust has it, so no ==.
fn same_token(list: &[u8], word: u64) -> bool {
    let token = tokens::token_of(word);
    number_at(list, 0) == records::rust_kind(token.kind)
        && number_at(list, 4) == token.span.start as u64
        && number_at(list, 8) == token.span.end as u64
        && number_at(list, 12) == token.raw.start as u64
        && number_at(list, 16) == token.raw.end as u64
}

// Whether the first n words of a table are the tokens that the list has from its start on.
fn same_tokens(list: &[u8], table: &[u64], n: usize) -> bool {
    n <= list.len() / 20
        && list
            .chunks_exact(20)
            .zip(table.iter().take(n))
            .all(|(told, word)| same_token(told, *word))
}

// Whether lexing answers as the Rust did: `list` starts with the tokens that are expected.
fn same_answer(text: &[u8], answer: u64, count: u64, list: &[u8]) -> bool {
    let mut table = [0u64; 4096];
    match (answer, lexer::lex(text, &mut table)) {
        (0, Ok(n)) => n as u64 == count && same_tokens(list, &table, n),
        (2, Err(Refusal::NotUtf8(p))) => p as u64 == count,
        (3, Err(Refusal::LoneQuote(_) | Refusal::CutCharacter(_))) => true,
        _ => false,
    }
}

// What a record says of lexing, and where the next one starts, which holds whatever `good` says: no Option is meant.
#[derive(Clone, Copy)]
struct Judged {
    next: usize,
    good: bool,
}

// Judges the record at an index; one that does not fit the list is no good, and the last.
fn judge(list: &[u8], at: usize) -> Judged
    requires { at < length list.now }
    ensures { (at < result.next) × (result.next ≤ length list.now) }
{
    let all = list.len();
    let left = all - at;
    let bad = Judged {
        next: all,
        good: false,
    };
    if left < 12 {
        return bad;
    }
    let len = number_at(list, at) as usize;
    let answer = number_at(list, at + 4);
    let count = number_at(list, at + 8);
    if left - 12 < len {
        return bad;
    }
    let room = left - 12 - len;
    let entries = entries_of(answer, count);
    if room / 20 < entries {
        return bad;
    }
    let from = at + 12;
    let text_at = from + entries * 20;
    let next = text_at + len;
    let good = same_answer(&list[text_at..next], answer, count, &list[from..text_at]);
    Judged { next, good }
}

// Only an accepted text has tokens in its record.
fn entries_of(answer: u64, count: u64) -> usize {
    if answer == 0 { count as usize } else { 0 }
}

fn print_verdict(rt: HostRuntime, texts: u64, good: u64) {
    print_number(rt, texts);
    print_text(rt, b" texts, ");
    print_number(rt, good);
    print_text(rt, b" as the Rust answered\n");
}

fn print_difference(rt: HostRuntime, text: u64) {
    print_text(rt, b"text ");
    print_number(rt, text);
    print_text(rt, b" differs\n");
}

// 1 for a text that is as the Rust answered; one that is not is printed.
fn counted(rt: HostRuntime, good: bool, text: u64) -> u64
    ensures { result ≤ 1 }
{
    if good {
        return 1;
    }
    print_difference(rt, text);
    0
}

fn replay(rt: HostRuntime, list: &[u8]) {
    let mut at = 0;
    let mut texts: u64 = 0;
    let mut good: u64 = 0;
    // a record takes as many bytes as it says, so this is no `for`
    while at < list.len() {
        let j = judge(list, at);
        good += counted(rt, j.good, texts);
        texts += 1;
        at = j.next;
    }
    print_verdict(rt, texts, good);
}

fn replay_file(rt: HostRuntime, path: &str) -> io::Result<()> {
    let mut list = [0u8; 65536];
    let n = records::read_list(rt, path, &mut list)?;
    replay(rt, &list[..n]);
    Ok(())
}

fn main(rt: HostRuntime) -> io::Result<()> {
    replay_file(rt, "lexing1")?;
    replay_file(rt, "lexing2")?;
    replay_file(rt, "lexing3")?;
    replay_file(rt, "lexing4")?;
    replay_file(rt, "lexing5")?;
    replay_file(rt, "lexing6")
}
