// Texts read into a slice of two label entries, which hold a mark before: what reading answers, both entries, and the label
// of level 0 that has a name.
#![tactic(auto)]

use answers::Refusal;
use as2_pcode::{Counts, Tables};
use entries::Label;
use entry_reading::read_entries;
use label_entries::{find_label, label_at};
use printing::{print_number, print_refusal, print_text};

// Two lines as in `held_test`: shared, they would be a public function for two tests.
fn print_field(rt: HostRuntime, n: usize) {
    print_text(rt, b" ");
    print_number(rt, n as u64);
}

fn print_label(rt: HostRuntime, label: Label) {
    print_text(rt, b"; label");
    print_field(rt, label.level);
    print_field(rt, label.token);
    print_field(rt, label.position);
}

// As in `held_test`: no crate below both knows `Counts` and prints.
fn print_counts(rt: HostRuntime, c: Counts) {
    print_text(rt, b"read");
    print_field(rt, c.tokens);
    print_field(rt, c.actions);
    print_field(rt, c.operands);
    print_field(rt, c.levels);
    print_field(rt, c.labels);
}

fn print_found(rt: HostRuntime, found: Option<usize>) {
    match found {
        Some(i) => {
            print_text(rt, b"; found at");
            print_field(rt, i);
        }
        None => print_text(rt, b"; not found"),
    }
    print_text(rt, b"\n");
}

fn print_answer(
    rt: HostRuntime,
    reading: Result<Counts, Refusal>,
    first: Label,
    second: Label,
    found: Option<usize>,
) {
    match reading {
        Ok(c) => print_counts(rt, c),
        Err(r) => print_refusal(rt, r),
    }
    print_label(rt, first);
    print_label(rt, second);
    print_found(rt, found);
}

// `lexed` holds the tokens that reading finds too: a table that is lent as `&mut` is given up.
fn read_two(
    rt: HostRuntime,
    text: &[u8],
    lexed: &[u64],
    name: &[u8],
    tokens: &mut [u64],
    actions: &mut [u64],
    operands: &mut [u64],
    levels: &mut [u64],
) {
    let mark = Label {
        level: 9,
        token: 9,
        position: 9,
    };
    let mut labels = [mark; 2];
    let mut tables = Tables {
        tokens,
        actions,
        operands,
        levels,
        labels: &mut labels,
    };
    let reading = read_entries(text, &mut tables);
    let held = &labels[..];
    let first = label_at(held, 0);
    let second = label_at(held, 1);
    let found = find_label(text, lexed, held, 0, name);
    print_answer(rt, reading, first, second, found);
}

fn try_text(rt: HostRuntime, text: &[u8], name: &[u8]) {
    let mut lexed = [0u64; 64];
    let _ = lexer::lex(text, &mut lexed);
    let mut tokens = [0u64; 64];
    let mut actions = [0u64; 64];
    let mut operands = [0u64; 64];
    let mut levels = [0u64; 64];
    read_two(
        rt,
        text,
        &lexed,
        name,
        &mut tokens,
        &mut actions,
        &mut operands,
        &mut levels,
    );
}

fn main(rt: HostRuntime) {
    // a label in a block, and one behind it
    try_text(rt, b"With {\nin: }\nout: Pop\n", b"out");
    try_text(rt, b"With {\nin: }\nout: Pop\n", b"in");
    // written again: the first token, the new position
    try_text(rt, b"a: Add\nb: Add\na: Pop\n", b"a");
    // full, and one short
    try_text(rt, b"a: b: Add\n", b"b");
    try_text(rt, b"a: b: c: Add\n", b"a");
    try_text(rt, b"With { Add }\n", b"a");
    try_text(rt, b"", b"");
}
