// Replays outside vectors for reading (data/, made by `compare/vectors read`): calls with the answers of an independent
// implementation of documents 01 and 02. What is expected of a call: the places of the five tables; then a refusal, or 0 and
// all entries (`entry_records`). Three things of an answer are in the list and passed over until they are here: a level's net
// by the jumps (document 02, §7), its label written last (§6), and how often a label was written (§3).
#![tactic(auto)]

use answers::Refusal;
use as2_pcode::{Counts, Tables};
use entry_records::{Entries, Totals};
use level_trees::Source;
use records::Cursor;
use std::io;

fn places_at(c: &mut Cursor) -> usize {
    c.take().unwrap_or(0) as usize
}

// What the tables are lent with. A place of the level table is two words.
fn lent_at(c: &mut Cursor) -> Counts {
    Counts {
        tokens: places_at(c),
        actions: places_at(c),
        operands: places_at(c),
        levels: places_at(c).min(2048) * 2,
        labels: places_at(c),
    }
}

fn entries_of(reading: Result<Counts, Refusal>) -> Entries {
    match reading {
        Ok(n) => Entries {
            actions: n.actions,
            operands: n.operands,
            levels: n.levels,
            labels: n.labels,
        },
        Err(_) => Entries::default(),
    }
}

fn expect_answer(c: &mut Cursor, of: Source, reading: Result<Counts, Refusal>) {
    match reading {
        Ok(_) => {
            c.expect(0);
            entry_records::expect_entries(c, of, entries_of(reading));
        }
        Err(r) => entry_records::expect_refusal(c, r),
    }
}

// A difference is printed as it is found. No call of the list has a table of more than 2,048 places.
fn hold(rt: HostRuntime, list: &[u8], stop: usize, next: usize, text: &[u8], totals: &mut Totals) {
    let mut words = [0u64; 2048];
    let mut acted = [0u64; 2048];
    let mut operands = [0u64; 2048];
    let mut levels = [0u64; 4096];
    let mut labels = [0u64; 2048];
    let mut c = Cursor::new(list, stop);
    let lent = lent_at(&mut c);
    let mut tables = Tables {
        tokens: &mut words,
        actions: &mut acted,
        operands: &mut operands,
        levels: &mut levels,
        labels: &mut labels,
    };
    let reading = fronts::read_fronts(text, lent, &mut tables);
    let of = Source {
        text,
        tokens: &words,
        actions: &acted,
        operands: &operands,
        levels: &levels,
        labels: &labels,
    };
    expect_answer(&mut c, of, reading);
    c.end(next);
    records::print_difference(rt, totals.texts, b"vectors", c.wrong);
    totals.add(entries_of(reading), of, &c);
}

fn replay(rt: HostRuntime, list: &[u8]) -> Totals {
    let mut totals = Totals::default();
    let mut at = 0;
    // a record takes as many bytes as it says, so this is no `for`
    while at < list.len() {
        let r = records::record_at(list, at);
        hold(
            rt,
            list,
            r.stop,
            r.next,
            &list[r.start..r.stop],
            &mut totals,
        );
        at = r.next;
    }
    totals
}

fn main(rt: HostRuntime) -> io::Result<()> {
    let mut list = [0u8; 65536];
    let n = records::read_list(rt, "vectors", &mut list)?;
    replay(rt, &list[..n]).print(rt);
    Ok(())
}
