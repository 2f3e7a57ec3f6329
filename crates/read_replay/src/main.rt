// Replays the answers that the Rust gave on a fixed list of texts (data/, made by `compare/run ORACLE sample-reading`). What is
// expected of reading stands in a record (`records` says what that is) in the order of the functions below. Whether a string was
// closed, and the count of those that were not, are left out.
#![tactic(auto)]

use answers::Refusal;
use as2_pcode::{Counts, Tables};
use entries::{Level, Net, Operand};
use level_trees::Source;
use records::{Cursor, print_count};
use std::io;
use tokens::Token;
use values::PushValue;

// ---- tokens: kind, what the kind carries, span, raw bounds

fn expect_token(c: &mut Cursor, token: Token) {
    let number = records::rust_kind(token.kind);
    c.expect(number / 65536);
    c.expect(number % 65536);
    c.expect(token.span.start as u64);
    c.expect(token.span.end as u64);
    c.expect(token.raw.start as u64);
    c.expect(token.raw.end as u64);
}

// ---- operands: action, token, and the value by its place in `PushValue` and what that holds; 9 where the Rust has no value

fn case_number(v: PushValue) -> u64 {
    match v {
        PushValue::Null => 0,
        PushValue::Undefined => 1,
        PushValue::String(_) => 2,
        PushValue::Integer(_) => 3,
        PushValue::Float(_) => 4,
        PushValue::True => 5,
        PushValue::False => 6,
        PushValue::Register(_) => 7,
        PushValue::Constant(_) => 8,
        PushValue::Long(_) => 4,
    }
}

// Where it is Long here the Rust has a double, document 01's listed difference, which is passed over.
fn expect_held(c: &mut Cursor, v: PushValue) {
    c.expect(case_number(v));
    match v {
        PushValue::Integer(n) => c.expect_signed(i64::from(n)),
        PushValue::Float(x) => c.expect(values::bits_of(x)),
        PushValue::Register(n) => c.expect(n as u64),
        PushValue::Constant(n) => c.expect(n as u64),
        PushValue::Long(_) => c.pass(),
        _ => {}
    }
}

fn expect_value(c: &mut Cursor, text: &[u8], token: Token) {
    let mut ahead = *c;
    if ahead.take() == Some(9) {
        *c = ahead;
        return;
    }
    match values::value(text, token) {
        Ok(v) => expect_held(c, v),
        Err(_) => c.expect(9),
    }
}

fn expect_operand(c: &mut Cursor, of: Source, operand: Operand) {
    c.expect(operand.action as u64);
    c.expect(operand.token as u64);
    expect_value(c, of.text, entries::token_in(of.tokens, operand.token));
}

// ---- levels: block, its action, action count, net (0 and the height, or 1 and the first undetermined action)

fn expect_net(c: &mut Cursor, net: Net) {
    match net {
        Net::Height(n) => {
            c.expect(0);
            c.expect_signed(n);
        }
        Net::Undetermined(action) => {
            c.expect(1);
            c.expect(action as u64);
        }
    }
}

fn expect_level(c: &mut Cursor, level: Level) {
    entry_records::expect_block(c, level.block);
    c.expect(level.actions as u64);
    expect_net(c, level.net);
}

// ---- an answer: 0, the counts and the entries, or a refusal's number and place

fn expect_counts(c: &mut Cursor, n: Counts) {
    c.expect(0);
    c.expect(n.tokens as u64);
    c.expect(n.actions as u64);
    c.expect(n.operands as u64);
    c.expect(n.levels as u64);
    c.expect(n.labels as u64);
}

// Of a label: level, token, position.
fn expect_reading(c: &mut Cursor, of: Source, n: Counts) {
    expect_counts(c, n);
    for i in 0..n.tokens {
        expect_token(c, entries::token_in(of.tokens, i));
    }
    entry_records::expect_actions(c, of, n.actions);
    for i in 0..n.operands {
        expect_operand(c, of, entries::operand_in(of.operands, i));
    }
    for i in 0..n.levels {
        expect_level(c, entries::level_in(of.levels, i));
    }
    for i in 0..n.labels {
        entry_records::expect_label(c, entries::label_in(of.labels, i));
    }
}

fn expect_answer(c: &mut Cursor, of: Source, reading: Result<Counts, Refusal>) {
    match reading {
        Ok(n) => expect_reading(c, of, n),
        Err(r) => entry_records::expect_refusal(c, r),
    }
}

// ---- all records

#[derive(Clone, Copy, Default)]
struct Totals {
    texts: u64,
    read: u64,
    tokens: u64,
    actions: u64,
    operands: u64,
    levels: u64,
    labels: u64,
    long: u64,
    differences: u64,
}

const NO_ENTRIES: Counts = Counts {
    tokens: 0,
    actions: 0,
    operands: 0,
    levels: 0,
    labels: 0,
};

// No count comes near to the limit.
fn plus(n: &mut u64, more: usize) {
    *n = n.wrapping_add(more as u64);
}

impl Totals {
    // One text more. Each accepted one has a level.
    fn add(&mut self, n: Counts, c: &Cursor) {
        plus(&mut self.texts, 1);
        plus(&mut self.read, usize::from(n.levels != 0));
        plus(&mut self.tokens, n.tokens);
        plus(&mut self.actions, n.actions);
        plus(&mut self.operands, n.operands);
        plus(&mut self.levels, n.levels);
        plus(&mut self.labels, n.labels);
        self.long = self.long.wrapping_add(c.passed);
        plus(&mut self.differences, usize::from(c.wrong.is_some()));
    }

    fn print(self, rt: HostRuntime) {
        print_count(rt, self.texts, b" texts, ");
        print_count(rt, self.read, b" read\n");
        print_count(rt, self.tokens, b" tokens, ");
        print_count(rt, self.actions, b" actions, ");
        print_count(rt, self.operands, b" operands, ");
        print_count(rt, self.levels, b" levels, ");
        print_count(rt, self.labels, b" labels\n");
        print_count(rt, self.long, b" numbers Long\n");
        print_count(rt, self.differences, b" differences\n");
    }
}

// Only the first difference is told. No text of the list is longer than 1,000 bytes; a level takes two words.
fn hold(
    rt: HostRuntime,
    list: &[u8],
    path: &str,
    stop: usize,
    next: usize,
    text: &[u8],
    totals: &mut Totals,
) {
    let mut words = [0u64; 1024];
    let mut acted = [0u64; 1024];
    let mut operands = [0u64; 1024];
    let mut levels = [0u64; 2048];
    let mut labels = [0u64; 1024];
    let mut tables = Tables {
        tokens: &mut words,
        actions: &mut acted,
        operands: &mut operands,
        levels: &mut levels,
        labels: &mut labels,
    };
    let reading = fronts::read_whole(text, &mut tables);
    let of = Source {
        text,
        tokens: &words,
        actions: &acted,
        operands: &operands,
        levels: &levels,
        labels: &labels,
    };
    let mut c = Cursor::new(list, stop);
    expect_answer(&mut c, of, reading);
    c.end(next);
    if totals.differences == 0 {
        records::print_difference(rt, totals.texts, path.as_bytes(), c.wrong);
    }
    totals.add(reading.unwrap_or(NO_ENTRIES), &c);
}

fn replay(rt: HostRuntime, list: &[u8], path: &str, totals: &mut Totals) {
    let mut at = 0;
    // a record takes as many bytes as it says, so this is no `for`
    while at < list.len() {
        let r = records::record_at(list, at);
        hold(
            rt,
            list,
            path,
            r.stop,
            r.next,
            &list[r.start..r.stop],
            totals,
        );
        at = r.next;
    }
}

fn replay_file(rt: HostRuntime, path: &str, totals: &mut Totals) -> io::Result<()> {
    let mut list = [0u8; 65536];
    let n = records::read_list(rt, path, &mut list)?;
    replay(rt, &list[..n], path, totals);
    Ok(())
}

fn main(rt: HostRuntime) -> io::Result<()> {
    let mut totals = Totals::default();
    replay_file(rt, "reading1", &mut totals)?;
    replay_file(rt, "reading2", &mut totals)?;
    replay_file(rt, "reading3", &mut totals)?;
    replay_file(rt, "reading4", &mut totals)?;
    replay_file(rt, "reading5", &mut totals)?;
    replay_file(rt, "reading6", &mut totals)?;
    replay_file(rt, "reading7", &mut totals)?;
    totals.print(rt);
    Ok(())
}
