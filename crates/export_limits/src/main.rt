// Export at the limits of its fields (document 02, §2): bodies of 65,535 and 65,536 bytes, offsets at both ends, a Push record of the
// greatest length, the largest text and output, and which fault of several counts. A line for each text: what it is, and how many bytes
// export writes and two of them where a field stands; or the refusal. Its `stdout` is printed by `compare/vectors limits`.
#![tactic(auto)]

use action_records::Style;
use answers::Refusal;
use as2_pcode::{Counts, Tables};
use export::Exported;
use export_fronts::{Asked, Left, MARK, MARK_BYTE, are_marked, export_fronts, front};
use printing::{print_number, print_refusal, print_text};

// ---- a text is built

// A byte more; a text that is full stays as it is.
fn put_byte(text: &mut [u8; 65537], at: usize, b: u8) -> usize {
    if at < 65537 {
        text[at] = b;
        return at + 1;
    }
    at
}

fn put(text: &mut [u8; 65537], at: usize, piece: &[u8]) -> usize {
    let mut at = at;
    for b in piece {
        at = put_byte(text, at, *b);
    }
    at
}

fn put_times(text: &mut [u8; 65537], at: usize, piece: &[u8], n: usize) -> usize {
    let mut at = at;
    for _ in 0..n {
        at = put(text, at, piece);
    }
    at
}

// A Push of so many values, from 1 on: the first, then each other behind its comma.
fn put_push(text: &mut [u8; 65537], at: usize, first: &[u8], other: &[u8], n: usize) -> usize {
    let at = put(text, at, b"Push ");
    let at = put(text, at, first);
    let at = put_times(text, at, other, std::num::wrapping_sub_usize(n, 1));
    put(text, at, b"\n")
}

// Doubles are 3 bytes of text and 9 of a record.
fn put_doubles(text: &mut [u8; 65537], at: usize, n: usize) -> usize {
    put_push(text, at, b"1.", b",1.", n)
}

// Actions of so many bytes, from 12 on: a Push of doubles, which has 3 bytes more than they, and an Add for each byte left over.
fn put_actions(text: &mut [u8; 65537], at: usize, size: usize) -> usize {
    let rest = std::num::wrapping_sub_usize(size, 3);
    let at = put_doubles(text, at, rest / 9);
    put_times(text, at, b"Add\n", rest % 9)
}

// ---- a text is tried

fn print_byte(rt: HostRuntime, b: u8) {
    print_text(rt, b" ");
    let _ = print!(rt; "{b:02x}");
}

fn print_byte_at(rt: HostRuntime, out: &[u8], at: usize) {
    if at < out.len() {
        print_byte(rt, out[at]);
    }
}

// How many bytes, and the two of a field.
fn print_written(rt: HostRuntime, out: &[u8], n: usize, field: usize) {
    print_number(rt, n as u64);
    print_text(rt, b" bytes, at ");
    print_number(rt, field as u64);
    print_byte_at(rt, out, field);
    print_byte_at(rt, out, std::num::wrapping_add_usize(field, 1));
}

fn print_answer(rt: HostRuntime, told: Result<Exported, Refusal>, out: &[u8], field: usize) {
    match told {
        Ok(exported) => print_written(rt, out, exported.bytes, field),
        Err(r) => print_refusal(rt, r),
    }
}

// Whether anything was changed must be as the answer says: a refusal changes nothing.
fn print_end(rt: HostRuntime, told: Result<Exported, Refusal>, unchanged: bool) {
    if unchanged == (export_fronts::answer_number(told) != 0) {
        print_text(rt, b"\n");
        return;
    }
    print_text(rt, b", WRONG: changed, or not\n");
}

// These texts have at most 65,536 tokens and 32,768 operands, but few actions, levels and labels.
const LENT: Counts = Counts {
    tokens: 65536,
    actions: 64,
    operands: 32768,
    levels: 64,
    labels: 64,
};

fn try_text(rt: HostRuntime, text: &[u8], room: usize, field: usize) {
    let mut tokens = [MARK; 65536];
    let mut actions = [MARK; 64];
    let mut operands = [MARK; 32768];
    let mut levels = [MARK; 64];
    let mut labels = [MARK; 64];
    let mut out = [MARK_BYTE; 196608];
    let asked = Asked {
        text,
        lent: LENT,
        room,
        style: Style::AsPlayed,
    };
    let mut tables = Tables {
        tokens: &mut tokens,
        actions: &mut actions,
        operands: &mut operands,
        levels: &mut levels,
        labels: &mut labels,
    };
    let told = export_fronts(asked, &mut tables, &mut out);
    print_answer(rt, told, &out, field);
    let left = Left {
        tokens: &tokens,
        actions: &actions,
        operands: &operands,
        levels: &levels,
        labels: &labels,
        out: &out,
    };
    print_end(rt, told, are_marked(left));
}

fn try_front(rt: HostRuntime, text: &[u8; 65537], n: usize, room: usize, field: usize) {
    try_text(rt, front(text, n), room, field);
}

// Actions of so many bytes between two pieces of text.
fn try_between(
    rt: HostRuntime,
    name: &[u8],
    before: &[u8],
    size: usize,
    behind: &[u8],
    field: usize,
) {
    let mut text = [0u8; 65537];
    let at = put(&mut text, 0, before);
    let at = put_actions(&mut text, at, size);
    let at = put(&mut text, at, behind);
    print_text(rt, name);
    try_front(rt, &text, at, 196608, field);
}

// ---- bodies: the field is their size

fn try_body(rt: HostRuntime, name: &[u8], before: &[u8], field: usize) {
    print_text(rt, name);
    try_between(rt, b", 65535 bytes: ", before, 65535, b"}\n", field);
    print_text(rt, name);
    try_between(rt, b", 65536 bytes: ", before, 65536, b"}\n", field);
}

fn bodies(rt: HostRuntime) {
    try_body(rt, b"With, its body", b"With {\n", 3);
    try_body(
        rt,
        b"DefineFunction, its body",
        b"DefineFunction \"f\", 0 {\n",
        7,
    );
    try_body(
        rt,
        b"DefineFunction2, its body",
        b"DefineFunction2 \"f\", 0, 0, true, true, true, true, true, true, true, true, true {\n",
        10,
    );
    try_body(rt, b"Try, its try block", b"Try {\n", 4);
    try_body(rt, b"Try, its catch block", b"Try {}\ncatch {\n", 6);
    try_body(rt, b"Try, its finally block", b"Try {}\nfinally {\n", 8);
}

// An outer body is the inner one and the five bytes of its record.
fn nested(rt: HostRuntime) {
    let before = b"With {\nWith {\n";
    try_between(
        rt,
        b"With in With, the outer body, 65535 bytes: ",
        before,
        65530,
        b"}\n}\n",
        3,
    );
    try_between(
        rt,
        b"With in With, the inner body, 65530 bytes: ",
        before,
        65530,
        b"}\n}\n",
        8,
    );
    try_between(
        rt,
        b"With in With, the outer body, 65536 bytes: ",
        before,
        65531,
        b"}\n}\n",
        3,
    );
}

// ---- offsets: from the end of the jump's record, which has five bytes

// `size` is that of the actions between which make the greatest offset.
fn try_forward(
    rt: HostRuntime,
    name: &[u8],
    before: &[u8],
    size: usize,
    behind: &[u8],
    field: usize,
) {
    let more = std::num::wrapping_add_usize(size, 1);
    print_text(rt, name);
    try_between(rt, b", an offset of 32767: ", before, size, behind, field);
    print_text(rt, name);
    try_between(rt, b", an offset of 32768: ", before, more, behind, field);
}

// And of those which make the least; the jump stands behind them.
fn try_back(rt: HostRuntime, name: &[u8], before: &[u8], size: usize, behind: &[u8]) {
    let more = std::num::wrapping_add_usize(size, 1);
    print_text(rt, name);
    try_between(rt, b", an offset of -32768: ", before, size, behind, 32766);
    print_text(rt, name);
    try_between(rt, b", an offset of -32769: ", before, more, behind, 32767);
}

fn offsets(rt: HostRuntime) {
    try_forward(rt, b"Jump", b"Jump a\n", 32767, b"a:\n", 3);
    try_back(rt, b"Jump", b"a:\n", 32763, b"Jump a\n");
    try_forward(rt, b"If", b"If a\n", 32767, b"a:\n", 3);
    try_back(rt, b"If", b"a:\n", 32763, b"If a\n");
    try_forward(
        rt,
        b"Jump in a body",
        b"With {\nJump a\n",
        32767,
        b"a: }\n",
        8,
    );
    try_forward(
        rt,
        b"Jump over a body",
        b"Jump a\nWith {\n",
        32762,
        b"}\na:\n",
        3,
    );
    try_back(
        rt,
        b"Jump over a body",
        b"a: With {\n",
        32758,
        b"}\nJump a\n",
    );
}

// ---- the length of a record

fn try_integers(rt: HostRuntime, name: &[u8], n: usize) {
    let mut text = [0u8; 65537];
    let at = put_push(&mut text, 0, b"1", b",1", n);
    print_text(rt, name);
    try_front(rt, &text, at, 196608, 1);
}

// 7,281 doubles have 65,529 bytes; a null has one.
fn try_nulls(rt: HostRuntime, name: &[u8], nulls: usize) {
    let mut text = [0u8; 65537];
    let at = put(&mut text, 0, b"Push 1.");
    let at = put_times(&mut text, at, b",1.", 7280);
    let at = put_times(&mut text, at, b",null", nulls);
    print_text(rt, name);
    try_front(rt, &text, at, 196608, 1);
}

fn lengths(rt: HostRuntime) {
    try_integers(rt, b"Push, 13107 integers: ", 13107);
    try_integers(rt, b"Push, 13108 integers: ", 13108);
    try_nulls(rt, b"Push, 65535 bytes of values: ", 6);
    try_nulls(rt, b"Push, 65536 bytes of values: ", 7);
}

// ---- which fault counts: a body that is too long is found behind any other fault; of two such the first in written order

fn faults(rt: HostRuntime) {
    try_between(
        rt,
        b"a body too long, then a Jump to no label: ",
        b"With {\n",
        65536,
        b"}\nJump a\n",
        0,
    );
    try_between(
        rt,
        b"a body too long, then a Long number: ",
        b"With {\n",
        65536,
        b"}\nPush 9007199254740993\n",
        0,
    );
    try_between(
        rt,
        b"an Add, then a body too long: ",
        b"Add\nWith {\n",
        65536,
        b"}\n",
        0,
    );
    try_between(
        rt,
        b"a Jump over an Add and a body too long: ",
        b"Jump a\nAdd\nWith {\n",
        65536,
        b"}\na:\n",
        0,
    );
    try_between(
        rt,
        b"a Jump back over an Add and a body too long: ",
        b"a: Add\nWith {\n",
        65536,
        b"}\nJump a\n",
        0,
    );
}

// ---- the largest text and output

// Three Push of doubles, and line ends: 65,536 bytes of text with one. The field is the length of the third record.
fn try_largest(rt: HostRuntime, name: &[u8], ends: usize, room: usize) {
    let mut text = [0u8; 65537];
    let at = put_doubles(&mut text, 0, 7281);
    let at = put_doubles(&mut text, at, 7281);
    let at = put_doubles(&mut text, at, 7278);
    let at = put_times(&mut text, at, b"\n", ends);
    print_text(rt, b"a text of ");
    print_number(rt, at as u64);
    print_text(rt, name);
    try_front(rt, &text, at, room, 131065);
}

fn largest(rt: HostRuntime) {
    try_largest(rt, b" bytes: ", 1, 196608);
    try_largest(rt, b" bytes, the output exactly full: ", 1, 196569);
    try_largest(rt, b" bytes, the output one byte short: ", 1, 196568);
    try_largest(rt, b" bytes, no output: ", 1, 0);
    try_largest(rt, b" bytes: ", 2, 196608);
}

fn main(rt: HostRuntime) {
    bodies(rt);
    nested(rt);
    offsets(rt);
    lengths(rt);
    faults(rt);
    largest(rt);
}
