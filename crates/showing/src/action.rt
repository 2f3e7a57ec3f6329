// The actions in the order written, each with its operands.
use crate::layout::{FACTS, put_head, put_name};
use crate::operand::put_operand;
use crate::place::{Place, next_place};
use answers::Refusal;
use columns::Columns;
use entries::Action;
use level_trees::Source;

// Where an action's line and its name start.
const LINE: usize = 24;

const NAME: usize = 35;

// ---- an action

// Of an action that stands in a reading, only an undetermined delta is refused.
fn put_delta(out: &mut Columns, d: Result<i32, Refusal>) {
    out.put_text(b"delta ");
    match d {
        Ok(n) => out.put_signed(i64::from(n)),
        Err(_) => out.put_byte(b'?'),
    }
}

fn put_action(out: &mut Columns, i: usize, a: Action, line: usize, d: Result<i32, Refusal>) {
    put_head(out, b"action  ", i);
    out.put_text(b"level ");
    out.put_number(a.level as u64);
    out.put_column(LINE);
    out.put_text(b"line ");
    out.put_number(line as u64);
    out.put_column(NAME);
    put_name(out, a.name);
    out.put_column(FACTS);
    put_delta(out, d);
    out.put_byte(b'\n');
}

// ---- its operands

fn put_operands(out: &mut Columns, of: Source, a: Action) {
    let own = lookups::words_from(of.operands, a.first, a.count);
    for (i, word) in own.iter().enumerate() {
        put_operand(out, of, a, i + 1, entries::operand_of(*word));
    }
}

// ---- all of them

pub fn put_actions(out: &mut Columns, of: Source, n: usize) {
    let mut p = Place {
        token: 0,
        byte: 0,
        line: 1,
    };
    for i in 0..n {
        p = next_place(of.text, of.tokens, p);
        let a = entries::action_in(of.actions, i);
        let d = lookups::delta_at(of.text, of.tokens, of.actions, of.operands, i);
        put_action(out, i, a, p.line, d);
        put_operands(out, of, a);
    }
}
