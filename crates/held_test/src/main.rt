// An example of a call over `held`: it may refuse a text that reading accepts, and then leaves every lent table as it was. A text is
// read if the net of its top level is determined, and else refused by 9. A line for each text: the answer, how many lent tables
// changed, and what `check` answers for tables of as many places.
#![tactic(auto)]

ghost use Rattle.std.specs.Prelude.{◌≡◌, ◌≤◌, length};
ghost use Rattle.entries.specs.Entries.{level_in};
ghost use Rattle.handover.specs.Reading.{places, held_in, SameSlices};
ghost use Rattle.held.specs.Held.{Holds};
ghost use Rattle.held_test.specs.Determined.{is_undetermined, ReadsDetermined};

use answers::Refusal;
use as2_pcode::{Counts, Tables};
use checking::check;
use entries::{Net, level_in};
use held::{hand_tables, read_held};
use printing::{print_number, print_refusal, print_text};

// Whether the net of the top level is undetermined.
fn is_undetermined(levels: &[u64]) -> bool
    ensures { result ≡ is_undetermined (level_in levels.now 0).net }
{
    let top = level_in(levels, 0);
    let net = top.net;
    match net {
        Net::Height(_) => false,
        Net::Undetermined(_) => true,
    }
}

// The work of the call, over held tables of any size.
fn finish(
    text: &[u8],
    reading: Result<Counts, Refusal>,
    held: &Tables,
    tables: &mut Tables,
) -> Result<Counts, Refusal>
    requires { Holds (length tables.old.tokens.now) (places (held_in tables.old)) text.now (held_in held.now) reading }
    ensures reads { ReadsDetermined text.now (held_in tables.old) (held_in tables.new) result }
    ensures same_slices { SameSlices tables.old tables.new }
{
    let counts = reading?;
    if is_undetermined(held.levels) {
        return Err(Refusal::Undetermined);
    }
    hand_tables(counts, held, tables);
    Ok(counts)
}

// Reads a text into the lent tables, or refuses it by rows 1 to 8, or by 9. The held tables are for any text; a call of the library
// has them by the length of the text, as `checking` does.
fn read_determined(text: &[u8], tables: &mut Tables) -> Result<Counts, Refusal>
    ensures reads { ReadsDetermined text.now (held_in tables.old) (held_in tables.new) result }
    ensures same_slices { SameSlices tables.old tables.new }
{
    let mut tokens = [0u64; 65536];
    let mut actions = [0u64; 32769];
    let mut operands = [0u64; 32769];
    let mut levels = [0u64; 65538];
    let mut labels = [0u64; 32769];
    let mut held = Tables {
        tokens: &mut tokens,
        actions: &mut actions,
        operands: &mut operands,
        levels: &mut levels,
        labels: &mut labels,
    };
    let places = Counts {
        tokens: tables.tokens.len(),
        actions: tables.actions.len(),
        operands: tables.operands.len(),
        levels: tables.levels.len() / 2,
        labels: tables.labels.len(),
    };
    let reading = read_held(text, places, &mut held);
    finish(text, reading, &held, tables)
}

// ---- the texts

// Two lines as in `entries_test`: shared, they would be a public function for two tests.
fn print_field(rt: HostRuntime, n: usize) {
    print_text(rt, b" ");
    print_number(rt, n as u64);
}

// As in `entries_test`: no crate below both knows `Counts` and prints.
fn print_counts(rt: HostRuntime, c: Counts) {
    print_text(rt, b"read");
    print_field(rt, c.tokens);
    print_field(rt, c.actions);
    print_field(rt, c.operands);
    print_field(rt, c.levels);
    print_field(rt, c.labels);
}

fn print_answer(rt: HostRuntime, reading: Result<Counts, Refusal>) {
    match reading {
        Ok(c) => print_counts(rt, c),
        Err(r) => print_refusal(rt, r),
    }
}

// 1 for a table that has lost its mark.
fn changed(word: u64) -> usize
    ensures { result ≤ 1 }
{
    if word == 9 { 0 } else { 1 }
}

fn print_changed(rt: HostRuntime, a: u64, b: u64, c: u64, d: u64, e: u64) {
    print_text(rt, b"; changed");
    print_field(
        rt,
        changed(a) + changed(b) + changed(c) + changed(d) + changed(e),
    );
    print_text(rt, b"; check ");
}

fn try_text(rt: HostRuntime, text: &[u8]) {
    let mut tokens = [9u64; 16];
    let mut actions = [9u64; 4];
    let mut operands = [9u64; 4];
    let mut levels = [9u64; 8];
    let mut labels = [9u64; 4];
    let mut tables = Tables {
        tokens: &mut tokens,
        actions: &mut actions,
        operands: &mut operands,
        levels: &mut levels,
        labels: &mut labels,
    };
    print_answer(rt, read_determined(text, &mut tables));
    print_changed(rt, tokens[0], actions[0], operands[0], levels[0], labels[0]);
    let places = Counts {
        tokens: 16,
        actions: 4,
        operands: 4,
        levels: 4,
        labels: 4,
    };
    print_answer(rt, check(text, places));
    print_text(rt, b"\n");
}

fn main(rt: HostRuntime) {
    try_text(rt, b"a: Push 1\nTrace\n");
    // undetermined at the top level, and in a block
    try_text(rt, b"CallFunction\n");
    try_text(rt, b"With {\nCallFunction\n}\n");
    // 9 comes after reading's refusals
    try_text(rt, b"CallFunction\nPush 1, 2, 3, 4, 5, 6, 7\n");
    try_text(rt, b"CallFunction\nWith { Add }\n");
    try_text(rt, b"CallFunction\na: b: c: d: e:\n");
    // larger held tables
    try_text(rt, &[b' '; 1025]);
    try_text(rt, &[b' '; 4097]);
    try_text(rt, &[b' '; 65537]);
}
