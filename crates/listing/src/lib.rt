// The listing of a reading: document 01, the paragraph on `pcode-list`.
#![tactic(auto)]

use answers::Refusal;
use as2_pcode::Counts;
use entries::Label;
use level_trees::Source;
use names::ActionName;
use printing::{print_number, print_refusal, print_signed, print_text};
use tokens::raw_text;

fn print_name(rt: HostRuntime, a: ActionName) {
    let letters = words::LETTERS;
    print_text(rt, words::spelling(&letters, a));
}

// Of an action that stands in a reading, only an undetermined delta is refused.
fn print_delta(rt: HostRuntime, d: Result<i32, Refusal>) {
    match d {
        Ok(n) => print_signed(rt, n),
        Err(_) => print_text(rt, b"?"),
    }
}

// Level, name, delta of action i.
fn print_action(rt: HostRuntime, of: Source, i: usize) {
    let a = entries::action_in(of.actions, i);
    print_number(rt, a.level as u64);
    print_text(rt, b" ");
    print_name(rt, a.name);
    print_text(rt, b" ");
    print_delta(
        rt,
        lookups::delta_at(of.text, of.tokens, of.actions, of.operands, i),
    );
    print_text(rt, b"\n");
}

// Level, name, position.
fn print_label(rt: HostRuntime, of: Source, l: Label) {
    print_text(rt, b"label ");
    print_number(rt, l.level as u64);
    print_text(rt, b" ");
    print_text(rt, raw_text(of.text, entries::token_in(of.tokens, l.token)));
    print_text(rt, b" ");
    print_number(rt, l.position as u64);
    print_text(rt, b"\n");
}

// The table of labels has them by level and order.
fn print_entries(rt: HostRuntime, of: Source, c: Counts) {
    print_text(rt, b"actions ");
    print_number(rt, c.actions as u64);
    print_text(rt, b" labels ");
    print_number(rt, c.labels as u64);
    print_text(rt, b" levels ");
    print_number(rt, c.levels as u64);
    print_text(rt, b"\n");
    for i in 0..c.actions {
        print_action(rt, of, i);
    }
    for i in 0..c.labels {
        print_label(rt, of, entries::label_in(of.labels, i));
    }
}

// What reading answered, with the tables that it filled; a refusal needs none of them.
pub fn print_reading(rt: HostRuntime, of: Source, r: Result<Counts, Refusal>) {
    match r {
        Ok(c) => print_entries(rt, of, c),
        Err(refusal) => {
            print_refusal(rt, refusal);
            print_text(rt, b"\n");
        }
    }
}
