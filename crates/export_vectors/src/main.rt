// Replays outside vectors for export (data/, made by `compare/vectors export`): calls with the answers of an independent
// implementation of documents 01 and 02. What is expected of a call: the places of the five tables, each 0 for no limit or one
// more than they are; 1 for GetUrl2's bits as players use them, else 0; the places of the output, written as those of a table;
// then a refusal, or 0 and the bytes.
// A refusal must leave the tables and the output as they were. Of an accepted text the tables must be those of `read`, and what
// lies behind the bytes as it was; and it is exported again with the output and with the tables exactly full, and one short.
#![tactic(auto)]

ghost use Rattle.std.specs.Prelude.{◌≤◌};

use action_records::Style;
use answers::Refusal;
use as2_pcode::{Counts, Tables};
use export::Exported;
use export_fronts::{
    Asked, Left, MARK, MARK_BYTE, answer_number, answer_place, are_marked, export_fronts,
    same_tables,
};
use printing::{print_number, print_text};
use records::Cursor;
use std::io;

// ---- counts

// Below 16 stands how often each number was answered, 0 for bytes; from there on what was compared.
const CALLS: usize = 16;

const BYTES: usize = 17;

const FULL_OUTPUTS: usize = 18;

const SHORT_OUTPUTS: usize = 19;

const FULL_TABLES: usize = 20;

const SHORT_TABLES: usize = 21;

const DIFFERENCES: usize = 22;

fn add(counts: &mut [u64; 23], i: usize, n: u64) {
    if i < 23 {
        counts[i] = std::num::wrapping_add_u64(counts[i], n);
    }
}

fn count_of(counts: &[u64; 23], i: usize) -> u64 {
    if i < 23 {
        return counts[i];
    }
    0
}

// A difference is printed as it is found, with the number of the text.
fn hold_to(rt: HostRuntime, good: bool, what: &[u8], counts: &mut [u64; 23]) {
    if good {
        return;
    }
    print_text(rt, b"text ");
    print_number(rt, count_of(counts, CALLS));
    print_text(rt, b" differs: ");
    print_text(rt, what);
    print_text(rt, b"\n");
    add(counts, DIFFERENCES, 1);
}

// ---- a call of the list

#[derive(Clone, Copy)]
struct Call<'a> {
    asked: Asked<'a>,
    next: usize,
}

// No text of the list has more entries for a table, or more bytes, than 4,096.
fn places(n: u64) -> usize
    ensures { result ≤ 4096 }
{
    if n == 0 {
        return 4096;
    }
    ((n - 1) as usize).min(4096)
}

fn style_of(n: u64) -> Style {
    if n == 0 {
        return Style::AsPrinted;
    }
    Style::AsPlayed
}

fn places_at(c: &mut Cursor) -> usize
    ensures { result ≤ 4096 }
{
    places(c.take().unwrap_or(0))
}

// A place of the level table is two words.
fn call_at<'a>(list: &[u8], at: usize, text: &'a [u8]) -> Call<'a> {
    let mut c = Cursor::new(list, at);
    let lent = Counts {
        tokens: places_at(&mut c),
        actions: places_at(&mut c),
        operands: places_at(&mut c),
        levels: places_at(&mut c) * 2,
        labels: places_at(&mut c),
    };
    let style = style_of(c.take().unwrap_or(0));
    let room = places_at(&mut c);
    let asked = Asked {
        text,
        lent,
        room,
        style,
    };
    Call { asked, next: c.at }
}

// ---- an accepted text, again

fn same_counts(c: Counts, reading: Result<Counts, Refusal>) -> bool {
    match reading {
        Ok(n) => {
            n.tokens == c.tokens
                && n.actions == c.actions
                && n.operands == c.operands
                && n.levels == c.levels
                && n.labels == c.labels
        }
        Err(_) => false,
    }
}

// Whether `read` counts and fills as export did.
fn is_as_read(asked: Asked, c: Counts, left: Left) -> bool {
    let mut tokens = [MARK; 4096];
    let mut actions = [MARK; 4096];
    let mut operands = [MARK; 4096];
    let mut levels = [MARK; 8192];
    let mut labels = [MARK; 4096];
    let mut tables = Tables {
        tokens: &mut tokens,
        actions: &mut actions,
        operands: &mut operands,
        levels: &mut levels,
        labels: &mut labels,
    };
    let reading = fronts::read_fronts(asked.text, asked.lent, &mut tables);
    let read = Left {
        tokens: &tokens,
        actions: &actions,
        operands: &operands,
        levels: &levels,
        labels: &labels,
        out: &[],
    };
    same_counts(c, reading) && same_tables(left, read)
}

// Whether export into other places leaves the same entries and n bytes.
fn is_written_again(asked: Asked, n: usize, left: Left) -> bool {
    let mut tokens = [MARK; 4096];
    let mut actions = [MARK; 4096];
    let mut operands = [MARK; 4096];
    let mut levels = [MARK; 8192];
    let mut labels = [MARK; 4096];
    let mut out = [MARK_BYTE; 4096];
    let mut tables = Tables {
        tokens: &mut tokens,
        actions: &mut actions,
        operands: &mut operands,
        levels: &mut levels,
        labels: &mut labels,
    };
    let told = export_fronts(asked, &mut tables, &mut out);
    let again = Left {
        tokens: &tokens,
        actions: &actions,
        operands: &operands,
        levels: &levels,
        labels: &labels,
        out: &out,
    };
    answer_number(told) == 0
        && answer_place(told) == n
        && left.out == again.out
        && same_tables(left, again)
}

// Whether export is refused so, and changes nothing.
fn is_refused(asked: Asked, number: u64, place: usize) -> bool {
    let mut tokens = [MARK; 4096];
    let mut actions = [MARK; 4096];
    let mut operands = [MARK; 4096];
    let mut levels = [MARK; 8192];
    let mut labels = [MARK; 4096];
    let mut out = [MARK_BYTE; 4096];
    let mut tables = Tables {
        tokens: &mut tokens,
        actions: &mut actions,
        operands: &mut operands,
        levels: &mut levels,
        labels: &mut labels,
    };
    let told = export_fronts(asked, &mut tables, &mut out);
    let left = Left {
        tokens: &tokens,
        actions: &actions,
        operands: &operands,
        levels: &levels,
        labels: &labels,
        out: &out,
    };
    answer_number(told) == number && answer_place(told) == place && are_marked(left)
}

// ---- one short

fn hold_short_output(rt: HostRuntime, asked: Asked, n: usize, counts: &mut [u64; 23]) {
    if n == 0 {
        return;
    }
    let short = Asked {
        room: n - 1,
        ..asked
    };
    hold_to(
        rt,
        is_refused(short, 12, n),
        b"output one byte short",
        counts,
    );
    add(counts, SHORT_OUTPUTS, 1);
}

fn full_lent(c: Counts) -> Counts {
    Counts {
        tokens: c.tokens,
        actions: c.actions,
        operands: c.operands,
        levels: c.levels.min(4096) * 2,
        labels: c.labels,
    }
}

fn less_if(yes: bool, n: usize) -> usize {
    if yes && 0 < n { n - 1 } else { n }
}

// Table 0 is that of tokens. A word less is a place less, of levels too.
fn short_lent(full: Counts, table: usize) -> Counts {
    Counts {
        tokens: less_if(table == 0, full.tokens),
        actions: less_if(table == 1, full.actions),
        operands: less_if(table == 2, full.operands),
        levels: less_if(table == 3, full.levels),
        labels: less_if(table == 4, full.labels),
    }
}

fn words_in(lent: Counts, table: usize) -> usize {
    match table {
        0 => lent.tokens,
        1 => lent.actions,
        2 => lent.operands,
        3 => lent.levels,
        _ => lent.labels,
    }
}

// A table that no entry is for cannot be short.
fn hold_short_table(rt: HostRuntime, full: Asked, table: usize, counts: &mut [u64; 23]) {
    if words_in(full.lent, table) == 0 {
        return;
    }
    let short = Asked {
        lent: short_lent(full.lent, table),
        ..full
    };
    let refused = is_short(short, table, full.lent.tokens);
    hold_to(rt, refused, b"table one place short", counts);
    add(counts, SHORT_TABLES, 1);
}

// 5 with the number of tokens, or 8 with the table, of which actions are 0.
fn is_short(short: Asked, table: usize, tokens: usize) -> bool {
    if table == 0 {
        return is_refused(short, 5, tokens);
    }
    is_refused(short, 8, table - 1)
}

fn hold_short_tables(rt: HostRuntime, full: Asked, counts: &mut [u64; 23]) {
    for table in 0..5 {
        hold_short_table(rt, full, table, counts);
    }
}

// ---- a text

// Tables and bytes that export wrote, held to `read` and to export into other places.
fn hold_written(
    rt: HostRuntime,
    asked: Asked,
    exported: Exported,
    left: Left,
    counts: &mut [u64; 23],
) {
    let n = exported.bytes;
    let full = Asked {
        lent: full_lent(exported.counts),
        ..asked
    };
    let kept = export_fronts::is_marked_from(left.out, n);
    hold_to(rt, kept, b"output behind the bytes", counts);
    let read = is_as_read(asked, exported.counts, left);
    hold_to(rt, read, b"tables are not as read", counts);
    let again = is_written_again(Asked { room: n, ..asked }, n, left);
    hold_to(rt, again, b"output exactly full", counts);
    add(counts, FULL_OUTPUTS, 1);
    let again = is_written_again(full, n, left);
    hold_to(rt, again, b"tables exactly full", counts);
    add(counts, FULL_TABLES, 1);
    hold_short_output(rt, asked, n, counts);
    hold_short_tables(rt, full, counts);
    add(counts, BYTES, n as u64);
}

fn hold_told(
    rt: HostRuntime,
    asked: Asked,
    told: Result<Exported, Refusal>,
    left: Left,
    counts: &mut [u64; 23],
) {
    match told {
        Ok(exported) => hold_written(rt, asked, exported, left, counts),
        Err(_) => hold_to(rt, are_marked(left), b"a refusal changed something", counts),
    }
}

fn expect_answer(c: &mut Cursor, told: Result<Exported, Refusal>, out: &[u8]) {
    match told {
        Ok(exported) => {
            c.expect(0);
            c.expect_bytes(export_fronts::front(out, exported.bytes));
        }
        Err(r) => entry_records::expect_refusal(c, r),
    }
}

// The answer held to the list.
fn hold_answer(
    rt: HostRuntime,
    list: &[u8],
    at: usize,
    next: usize,
    told: Result<Exported, Refusal>,
    out: &[u8],
    counts: &mut [u64; 23],
) {
    let mut c = Cursor::new(list, at);
    expect_answer(&mut c, told, out);
    c.end(next);
    records::print_difference(rt, count_of(counts, CALLS), b"vectors", c.wrong);
    if c.wrong.is_some() {
        add(counts, DIFFERENCES, 1);
    }
    add(counts, (answer_number(told) as usize).min(15), 1);
}

fn hold(
    rt: HostRuntime,
    list: &[u8],
    stop: usize,
    next: usize,
    text: &[u8],
    counts: &mut [u64; 23],
) {
    let mut tokens = [MARK; 4096];
    let mut actions = [MARK; 4096];
    let mut operands = [MARK; 4096];
    let mut levels = [MARK; 8192];
    let mut labels = [MARK; 4096];
    let mut out = [MARK_BYTE; 4096];
    let call = call_at(list, stop, text);
    let mut tables = Tables {
        tokens: &mut tokens,
        actions: &mut actions,
        operands: &mut operands,
        levels: &mut levels,
        labels: &mut labels,
    };
    let told = export_fronts(call.asked, &mut tables, &mut out);
    let left = Left {
        tokens: &tokens,
        actions: &actions,
        operands: &operands,
        levels: &levels,
        labels: &labels,
        out: &out,
    };
    hold_answer(rt, list, call.next, next, told, left.out, counts);
    hold_told(rt, call.asked, told, left, counts);
    add(counts, CALLS, 1);
}

fn replay(rt: HostRuntime, list: &[u8], counts: &mut [u64; 23]) {
    let mut at = 0;
    // a record takes as many bytes as it says, so this is no `for`
    while at < list.len() {
        let r = records::record_at(list, at);
        let start = r.start;
        let stop = r.stop;
        hold(rt, list, stop, r.next, &list[start..stop], counts);
        at = r.next;
    }
}

// ---- what is printed

fn print_refused(rt: HostRuntime, counts: &[u64; 23], number: usize) {
    let n = count_of(counts, number);
    if n == 0 {
        return;
    }
    print_text(rt, b", ");
    print_number(rt, n);
    print_text(rt, b" refused with ");
    print_number(rt, number as u64);
}

fn print_refusals(rt: HostRuntime, counts: &[u64; 23]) {
    for number in 1..16 {
        print_refused(rt, counts, number);
    }
}

fn print_counts(rt: HostRuntime, counts: &[u64; 23]) {
    records::print_count(rt, count_of(counts, CALLS), b" calls, ");
    records::print_count(rt, count_of(counts, 0), b" accepted");
    print_refusals(rt, counts);
    print_text(rt, b"\n");
    records::print_count(rt, count_of(counts, BYTES), b" bytes compared\n");
    records::print_count(
        rt,
        count_of(counts, FULL_OUTPUTS),
        b" outputs exactly full, ",
    );
    records::print_count(rt, count_of(counts, SHORT_OUTPUTS), b" one byte short\n");
    records::print_count(
        rt,
        count_of(counts, FULL_TABLES),
        b" times all tables exactly full, ",
    );
    records::print_count(
        rt,
        count_of(counts, SHORT_TABLES),
        b" tables one place short\n",
    );
    records::print_count(rt, count_of(counts, DIFFERENCES), b" differences\n");
}

fn main(rt: HostRuntime) -> io::Result<()> {
    let mut list = [0u8; 65536];
    let n = records::read_list(rt, "vectors", &mut list)?;
    let mut counts = [0u64; 23];
    replay(rt, &list[..n], &mut counts);
    print_counts(rt, &counts);
    Ok(())
}
