// The entries of a reading, held to a record (`records` says what that is), and what was compared, counted.
#![tactic(auto)]

use answers::Refusal;
use entries::{Action, Block, Label, Level, Operand};
use level_trees::Source;
use records::{Cursor, print_count};
use tokens::TokenKind;

// ---- refusals: number and place

pub fn expect_refusal(c: &mut Cursor, r: Refusal) {
    c.expect(answers::refusal_number(r));
    c.expect(answers::refusal_place(r) as u64);
}

// ---- actions: name, level, delta (0 and the delta, or a refusal), how many operands and, if there are any, which is the first

fn is_empty_at(of: Source, first: usize) -> bool {
    let operand = entries::operand_in(of.operands, first);
    tokens::raw_text(of.text, entries::token_in(of.tokens, operand.token)).is_empty()
}

fn expect_delta(c: &mut Cursor, delta: Result<i32, Refusal>) {
    match delta {
        Ok(d) => {
            c.expect(0);
            c.expect_signed(i64::from(d));
        }
        Err(r) => c.expect(answers::refusal_number(r)),
    }
}

fn expect_action(c: &mut Cursor, of: Source, action: Action) {
    c.expect(actions::action_number(action.name) as u64);
    c.expect(action.level as u64);
    let is_empty = is_empty_at(of, action.first);
    expect_delta(c, pcode::delta(action.name, action.count, is_empty));
    c.expect(action.count as u64);
    if action.count != 0 {
        c.expect(action.first as u64);
    }
}

pub fn expect_actions(c: &mut Cursor, of: Source, n: usize) {
    for i in 0..n {
        expect_action(c, of, entries::action_in(of.actions, i));
    }
}

// ---- operands: action, token, the closing quote by the token, and 1 if the entry says that it is missing, else 0

// 0: no string, 1: closed, 2: unclosed.
fn closing_at(tokens: &[u64], operand: Operand) -> u64 {
    match entries::token_in(tokens, operand.token).kind {
        TokenKind::String(true) => 1,
        TokenKind::String(false) => 2,
        _ => 0,
    }
}

fn expect_operand(c: &mut Cursor, tokens: &[u64], operand: Operand) {
    c.expect(operand.action as u64);
    c.expect(operand.token as u64);
    c.expect(closing_at(tokens, operand));
    c.expect(u64::from(operand.unclosed));
}

// How many of the first operands have a closing as told above.
fn count_closing(of: Source, n: usize, closing: u64) -> u64 {
    let mut good: u64 = 0;
    for i in 0..n {
        let told = closing_at(of.tokens, entries::operand_in(of.operands, i));
        good = good.wrapping_add(u64::from(told == closing));
    }
    good
}

// ---- levels: block, its action, action count, unclosed strings, and three numbers that are passed over until these requests
// of document 02 are here: the net along the jumps (§7) in two, and the label written last (§6)

pub fn expect_block(c: &mut Cursor, block: Block) {
    let (number, action) = match block {
        Block::Top => return c.expect(0),
        Block::Body(a) => (1, a),
        Block::Try(a) => (2, a),
        Block::Catch(a) => (3, a),
        Block::Finally(a) => (4, a),
    };
    c.expect(number);
    c.expect(action as u64);
}

fn expect_level(c: &mut Cursor, level: Level) {
    expect_block(c, level.block);
    c.expect(level.actions as u64);
    c.expect(level.unclosed as u64);
    c.pass();
    c.pass();
    c.pass();
}

// ---- labels: level, token, position

pub fn expect_label(c: &mut Cursor, label: Label) {
    c.expect(label.level as u64);
    c.expect(label.token as u64);
    c.expect(label.position as u64);
}

// And its name; how often it was written (§3) is passed over until then.
fn expect_named(c: &mut Cursor, of: Source, label: Label) {
    expect_label(c, label);
    let token = entries::token_in(of.tokens, label.token);
    c.expect_bytes(tokens::raw_text(of.text, token));
    c.pass();
}

// ---- all entries: how many actions, operands, levels and labels, and each of them

// A refusal has none.
#[derive(Clone, Copy, Default)]
pub struct Entries {
    pub actions: usize,
    pub operands: usize,
    pub levels: usize,
    pub labels: usize,
}

pub fn expect_entries(c: &mut Cursor, of: Source, n: Entries) {
    c.expect(n.actions as u64);
    c.expect(n.operands as u64);
    c.expect(n.levels as u64);
    c.expect(n.labels as u64);
    expect_actions(c, of, n.actions);
    for i in 0..n.operands {
        expect_operand(c, of.tokens, entries::operand_in(of.operands, i));
    }
    for i in 0..n.levels {
        expect_level(c, entries::level_in(of.levels, i));
    }
    for i in 0..n.labels {
        expect_named(c, of, entries::label_in(of.labels, i));
    }
}

// ---- what was compared

#[derive(Clone, Copy, Default)]
pub struct Totals {
    pub texts: u64,
    pub refused: u64,
    pub actions: u64,
    pub operands: u64,
    pub closed: u64,
    pub unclosed: u64,
    pub levels: u64,
    pub labels: u64,
    pub passed: u64,
    pub differences: u64,
}

// No count comes near to the limit.
fn plus(n: &mut u64, more: u64) {
    *n = n.wrapping_add(more);
}

impl Totals {
    // One text more. Each accepted one has a level.
    pub fn add(&mut self, n: Entries, of: Source, c: &Cursor) {
        plus(&mut self.texts, 1);
        plus(&mut self.refused, u64::from(n.levels == 0));
        plus(&mut self.actions, n.actions as u64);
        plus(&mut self.operands, n.operands as u64);
        plus(&mut self.closed, count_closing(of, n.operands, 1));
        plus(&mut self.unclosed, count_closing(of, n.operands, 2));
        plus(&mut self.levels, n.levels as u64);
        plus(&mut self.labels, n.labels as u64);
        plus(&mut self.passed, c.passed);
        plus(&mut self.differences, u64::from(c.wrong.is_some()));
    }

    pub fn print(self, rt: HostRuntime) {
        print_count(rt, self.texts, b" texts, ");
        print_count(rt, self.refused, b" refused\n");
        print_count(rt, self.actions, b" actions, ");
        print_count(rt, self.operands, b" operands, ");
        print_count(rt, self.closed, b" strings closed, ");
        print_count(rt, self.unclosed, b" unclosed, ");
        print_count(rt, self.levels, b" levels, ");
        print_count(rt, self.labels, b" labels\n");
        print_count(rt, self.passed, b" numbers passed over\n");
        print_count(rt, self.differences, b" differences\n");
    }
}
