// Document 01's bench texts, the starred ones too, its traps at the door and its rows on tables, and strings without their
// closing quote (document 02, §1): a line for each, with the text and what reading answers. Its `stdout` is typed from the
// documents.
#![tactic(auto)]

ghost use Rattle.std.specs.Prelude.{◌≤◌};

use answers::Refusal;
use as2_pcode::{Counts, Tables};
use printing::{print_bits, print_number, print_refusal, print_signed, print_text};
use tokens::Token;
use values::PushValue;

// ---- the text of a line

// What a terminal would not show is written as in Rust.
fn print_byte(rt: HostRuntime, b: u8) {
    match b {
        10 => print_text(rt, b"\\n"),
        32..=126 => print_text(rt, &[b]),
        _ => print_escape(rt, b),
    }
}

fn print_escape(rt: HostRuntime, b: u8) {
    print_text(rt, b"\\x");
    let _ = print!(rt; "{b:02x}");
}

fn print_bytes(rt: HostRuntime, text: &[u8]) {
    for b in text {
        print_byte(rt, *b);
    }
}

fn print_head(rt: HostRuntime, text: &[u8]) {
    if text.len() == 0 {
        print_text(rt, b"empty");
    }
    print_bytes(rt, text);
    print_text(rt, b": ");
}

// ---- what reading answers

fn print_named(rt: HostRuntime, what: &[u8], n: usize) {
    print_text(rt, what);
    print_number(rt, n as u64);
}

// The whole number that a double is, if it is one.
fn whole(x: f64) -> Option<u64> {
    let n = std::num::saturating_f64_to_u64(x);
    if 9007199254740992 < n {
        return None;
    }
    if n as f64 == x {
        return Some(n);
    }
    None
}

// Minus zero by its sign, which no comparison shows; a whole number in digits; any other double by its bits.
fn print_double(rt: HostRuntime, x: f64) {
    let bits = values::bits_of(x);
    if bits == 0x8000_0000_0000_0000 {
        print_text(rt, b"-0");
        return;
    }
    match whole(x) {
        Some(n) => print_number(rt, n),
        None => print_bits(rt, bits),
    }
}

// The cases that hold nothing.
fn print_word(rt: HostRuntime, v: PushValue) {
    match v {
        PushValue::Null => print_text(rt, b"null"),
        PushValue::Undefined => print_text(rt, b"undefined"),
        PushValue::True => print_text(rt, b"true"),
        PushValue::False => print_text(rt, b"false"),
        _ => {}
    }
}

// The cases that hold something, which is printed behind it.
fn print_case(rt: HostRuntime, v: PushValue) {
    match v {
        PushValue::String(_) => print_text(rt, b"string "),
        PushValue::Integer(_) => print_text(rt, b"integer "),
        PushValue::Float(_) => print_text(rt, b"double "),
        PushValue::Register(_) => print_text(rt, b"register "),
        PushValue::Constant(_) => print_text(rt, b"constant "),
        PushValue::Long(_) => print_text(rt, b"long "),
        _ => {}
    }
}

fn print_held(rt: HostRuntime, raw: &[u8], v: PushValue) {
    match v {
        PushValue::String(_) => print_bytes(rt, raw),
        PushValue::Integer(n) => print_signed(rt, n),
        PushValue::Float(x) => print_double(rt, x),
        PushValue::Register(n) => print_number(rt, n as u64),
        PushValue::Constant(n) => print_number(rt, n as u64),
        PushValue::Long(_) => print_bytes(rt, raw),
        _ => {}
    }
}

// An operand's value; the name of a label has none.
fn print_operand(rt: HostRuntime, text: &[u8], token: Token) {
    let raw = tokens::raw_text(text, token);
    match values::value(text, token) {
        Ok(v) => {
            print_word(rt, v);
            print_case(rt, v);
            print_held(rt, raw, v);
        }
        Err(_) => {
            print_text(rt, b"name ");
            print_bytes(rt, raw);
        }
    }
}

fn print_flag(rt: HostRuntime, unclosed: bool) {
    if unclosed {
        print_text(rt, b" unclosed");
    }
}

fn print_operands(rt: HostRuntime, text: &[u8], words: &[u64], operands: &[u64], n: usize) {
    for i in 0..n {
        print_text(rt, b"; ");
        let operand = entries::operand_in(operands, i);
        print_operand(rt, text, entries::token_in(words, operand.token));
        print_flag(rt, operand.unclosed);
    }
}

// The unclosed strings of a level that has any.
fn print_level(rt: HostRuntime, levels: &[u64], i: usize) {
    let level = entries::level_in(levels, i);
    if level.unclosed == 0 {
        return;
    }
    print_named(rt, b"; level ", i);
    print_named(rt, b" unclosed ", level.unclosed);
}

fn print_levels(rt: HostRuntime, levels: &[u64], n: usize) {
    for i in 0..n {
        print_level(rt, levels, i);
    }
}

// As `pcode-list` prints it: level, name, position.
fn print_label(rt: HostRuntime, text: &[u8], words: &[u64], labels: &[u64], i: usize) {
    let label = entries::label_in(labels, i);
    print_named(rt, b"; label ", label.level);
    print_text(rt, b" ");
    print_bytes(
        rt,
        tokens::raw_text(text, entries::token_in(words, label.token)),
    );
    print_named(rt, b" ", label.position);
}

fn print_labels(rt: HostRuntime, text: &[u8], words: &[u64], labels: &[u64], n: usize) {
    for i in 0..n {
        print_label(rt, text, words, labels, i);
    }
}

fn print_counts(rt: HostRuntime, c: Counts) {
    print_named(rt, b"levels ", c.levels);
    print_named(rt, b" actions ", c.actions);
    print_named(rt, b" operands ", c.operands);
    print_named(rt, b" labels ", c.labels);
}

const NO_ENTRIES: Counts = Counts {
    tokens: 0,
    actions: 0,
    operands: 0,
    levels: 0,
    labels: 0,
};

// Prints a refusal, or the counts of a reading, and says how many entries each table has.
fn entries_of(rt: HostRuntime, reading: Result<Counts, Refusal>) -> Counts {
    match reading {
        Ok(c) => {
            print_counts(rt, c);
            c
        }
        Err(r) => {
            print_refusal(rt, r);
            NO_ENTRIES
        }
    }
}

fn answer(
    rt: HostRuntime,
    text: &[u8],
    words: &[u64],
    operands: &[u64],
    levels: &[u64],
    labels: &[u64],
    reading: Result<Counts, Refusal>,
) {
    let c = entries_of(rt, reading);
    print_operands(rt, text, words, operands, c.operands);
    print_levels(rt, levels, c.levels);
    print_labels(rt, text, words, labels, c.labels);
    print_text(rt, b"\n");
}

// With so many tokens and actions; no text has more than 1,024 operands, levels or labels.
#[inline(never)]
fn read<const T: usize, const A: usize>(rt: HostRuntime, text: &[u8])
    requires { (T ≤ 65536) × (A ≤ 16384) }
{
    let mut words = [0u64; T];
    let mut actions = [0u64; A];
    let mut operands = [0u64; 1024];
    let mut levels = [0u64; 2048];
    let mut labels = [0u64; 1024];
    let mut tables = Tables {
        tokens: &mut words,
        actions: &mut actions,
        operands: &mut operands,
        levels: &mut levels,
        labels: &mut labels,
    };
    let reading = fronts::read_whole(text, &mut tables);
    answer(rt, text, &words, &operands, &levels, &labels, reading);
}

fn show(rt: HostRuntime, text: &[u8]) {
    print_head(rt, text);
    read::<1024, 1024>(rt, text);
}

// ---- nestings and sizes

// A piece again and again, from a place up to another.
fn fill(text: &mut [u8], from: usize, to: usize, piece: &[u8]) {
    if to < from || text.len() < to {
        return;
    }
    for (byte, repeated) in text[from..to].iter_mut().zip(piece.iter().cycle()) {
        *byte = *repeated;
    }
}

fn front(text: &[u8], n: usize) -> &[u8] {
    let end = n.min(text.len());
    &text[..end]
}

// That many With inside one another, with a line feed only after each closing brace, between two short texts.
fn read_nested(rt: HostRuntime, before: &[u8], blocks: usize, behind: &[u8]) {
    let start = before.len().min(100);
    let more = behind.len().min(100);
    let opened = start + blocks.min(100) * 6;
    let closed = opened + blocks.min(100) * 2;
    let mut text = [0u8; 1000];
    fill(&mut text, 0, start, before);
    fill(&mut text, start, opened, b"With {");
    fill(&mut text, opened, closed, b"}\n");
    fill(&mut text, closed, closed + more, behind);
    read::<1024, 1024>(rt, front(&text, closed + more));
}

fn show_nested(rt: HostRuntime, before: &[u8], blocks: usize, behind: &[u8]) {
    print_bytes(rt, before);
    print_number(rt, blocks as u64);
    print_text(rt, b" nested With");
    print_bytes(rt, behind);
    print_text(rt, b": ");
    read_nested(rt, before, blocks, behind);
}

// A piece again and again in a text of the largest size, and of a byte more: a token for each byte, an action for each four.
fn show_size(rt: HostRuntime, piece: &[u8]) {
    let mut text = [0u8; 65537];
    fill(&mut text, 0, 65537, piece);
    print_text(rt, b"65536 bytes of ");
    print_head(rt, piece);
    read::<65536, 16384>(rt, front(&text, 65536));
    print_text(rt, b"65537 bytes of ");
    print_head(rt, piece);
    read::<65536, 16384>(rt, &text);
}

// ---- tables

// What stands in the tables before a call: a word that no entry is.
const MARK: u64 = 16045690984503098046;

fn print_lent(rt: HostRuntime, p: Counts) {
    print_named(rt, b"tables of ", p.tokens);
    print_named(rt, b" ", p.actions);
    print_named(rt, b" ", p.operands);
    print_named(rt, b" ", p.levels);
    print_named(rt, b" ", p.labels);
    print_text(rt, b" words, ");
}

// Whether a table holds the mark from a place on.
fn is_marked(table: &[u64], from: usize) -> bool {
    table.iter().skip(from).all(|word| *word == MARK)
}

// Whether every table holds the mark behind its entries; a level takes two words.
fn are_marked(
    c: Counts,
    words: &[u64],
    actions: &[u64],
    operands: &[u64],
    levels: &[u64],
    labels: &[u64],
) -> bool {
    is_marked(words, c.tokens)
        && is_marked(actions, c.actions)
        && is_marked(operands, c.operands)
        && is_marked(levels, c.levels.min(100) * 2)
        && is_marked(labels, c.labels)
}

fn print_kept(rt: HostRuntime, kept: bool) {
    if kept {
        print_text(rt, b"; no other place changed\n");
        return;
    }
    print_text(rt, b"; MORE CHANGED\n");
}

// Lends tables of so many words, parts of longer ones that are marked all over.
fn show_tables(rt: HostRuntime, text: &[u8], p: Counts) {
    print_lent(rt, p);
    print_head(rt, text);
    let mut words = [MARK; 33];
    let mut actions = [MARK; 33];
    let mut operands = [MARK; 33];
    let mut levels = [MARK; 33];
    let mut labels = [MARK; 33];
    let mut tables = Tables {
        tokens: &mut words,
        actions: &mut actions,
        operands: &mut operands,
        levels: &mut levels,
        labels: &mut labels,
    };
    let n = entries_of(rt, fronts::read_fronts(text, p, &mut tables));
    print_kept(
        rt,
        are_marked(n, &words, &actions, &operands, &levels, &labels),
    );
}

// Five numbers stand in a line below, where a struct would take seven lines for each case.
fn show_words(
    rt: HostRuntime,
    text: &[u8],
    tokens: usize,
    actions: usize,
    operands: usize,
    levels: usize,
    labels: usize,
) {
    show_tables(
        rt,
        text,
        Counts {
            tokens,
            actions,
            operands,
            levels,
            labels,
        },
    );
}

// ---- the texts

fn values(rt: HostRuntime) {
    show(rt, b"");
    show(rt, b"Push 1e5");
    show(rt, b"Push 1e5\n");
    show(rt, b"Push 2147483647, 2147483648");
    show(rt, b"Push -0, -0.0");
    show(rt, b"Push constant65536");
    show(rt, b"Push constant65535");
    show(rt, b"Push register256");
    show(rt, b"Push register255");
}

fn strings(rt: HostRuntime) {
    show(rt, b"\"");
    show(rt, b"GotoLabel \"ab");
    show(rt, b"GotoLabel \"\xc3\xa9");
    show(rt, b"DefineFunction \"f\", -3 {}");
}

fn blocks(rt: HostRuntime) {
    show(rt, b"With { Add }");
    show(rt, b"With { a: }");
    show(rt, b"a: Add\na: Pop");
    show(rt, b"StoreRegister 255");
    show(rt, b"StoreRegister 256");
    show(rt, b"StoreRegister -0");
}

fn limits(rt: HostRuntime) {
    show_nested(rt, b"", 64, b"");
    show_nested(rt, b"", 65, b"");
    show_size(rt, b"Add\n");
    show_size(rt, b"\n");
    show_size(rt, b"\t");
}

// The traps at the door: a byte order mark, exponent digits at the end, a repeated label, `constant65536`.
fn traps(rt: HostRuntime) {
    show(rt, b"\xef\xbb\xbf");
    show(rt, b"\xef\xbb\xbfAdd\n");
    show(rt, b"Push 1e55");
    show(rt, b"Push 1e5 ");
    show(rt, b"a: b: Add\na: Pop");
    show(rt, b"constant65536: Jump constant65536");
    show(rt, b"register256: Jump register256");
}

// The order of the rows: 2 before 3, 3 before 6, and the earlier of 3 and 4, and of 6 and 7.
fn rows(rt: HostRuntime) {
    show(rt, b"Add\xff\"");
    show(rt, b"\"\n\"\xc3\xa9");
    show(rt, b"\"\xc3\xa9\n\"");
    show(rt, b"} \"");
    show_nested(rt, b"} ", 65, b"");
    show_nested(rt, b"", 65, b" }");
}

// Strings without their closing quote: at the end of a line, behind an escaped quote (and a closed one behind an escaped
// backslash), the last of a pool, in a level and in the body there, in a body alone.
fn unclosed(rt: HostRuntime) {
    show(rt, b"Push \"a\", \"b\n");
    show(rt, b"Push \"a\\\"\n");
    show(rt, b"Push \"a\\\\\"\n");
    show(rt, b"ConstantPool \"a\", \"b\", \"cd\nPush constant2\n");
    show(rt, b"Push \"ab\nWith {\nPush \"cd\n}\nPush \"e\"\n");
    show(
        rt,
        b"DefineFunction \"f\", 0 {\nPush 1, \"ab\nTrace\nGetUrl \"u\", \"vw\n}\nPush \"e\"\n",
    );
}

// Rows 5 and 8: the example of `pcode-list` has 19 tokens, 4 actions, 3 operands, 2 levels of two words each, and 2 labels.
fn example(
    rt: HostRuntime,
    tokens: usize,
    actions: usize,
    operands: usize,
    levels: usize,
    labels: usize,
) {
    let text = b"start: Push \"ok\", 3\nWith {\nTrace\ndone: }\nJump start\n";
    show_words(rt, text, tokens, actions, operands, levels, labels);
}

fn tables(rt: HostRuntime) {
    example(rt, 19, 4, 3, 4, 2);
    example(rt, 32, 32, 32, 32, 32);
    example(rt, 18, 4, 3, 4, 2);
    example(rt, 19, 3, 3, 4, 2);
    example(rt, 19, 4, 2, 4, 2);
    example(rt, 19, 4, 3, 3, 2);
    example(rt, 19, 4, 3, 4, 1);
    example(rt, 18, 3, 2, 3, 1);
    example(rt, 19, 3, 2, 3, 1);
    example(rt, 19, 4, 2, 3, 1);
    example(rt, 19, 4, 3, 3, 1);
    example(rt, 0, 0, 0, 0, 0);
}

// Of an odd number of words the last is no place of the level table, and stays as it was.
fn other_tables(rt: HostRuntime) {
    example(rt, 19, 4, 3, 5, 2);
    example(rt, 19, 4, 3, 2, 2);
    show_words(rt, b"", 0, 0, 0, 2, 0);
    show_words(rt, b"", 0, 0, 0, 3, 0);
    show_words(rt, b"", 0, 0, 0, 1, 0);
    show_words(rt, b"", 0, 0, 0, 0, 0);
    show_words(rt, b"With { Add }", 4, 0, 0, 0, 0);
    show_words(rt, b"With { Add }", 3, 0, 0, 0, 0);
    show_words(rt, b"\"", 0, 0, 0, 0, 0);
}

fn main(rt: HostRuntime) {
    values(rt);
    strings(rt);
    blocks(rt);
    limits(rt);
    traps(rt);
    rows(rt);
    unclosed(rt);
    tables(rt);
    other_tables(rt);
}
