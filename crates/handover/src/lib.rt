// The answer of reading, and what it hands over: a reading's entries go into the lent tables if all of them have room.
#![tactic(auto)]

ghost use Rattle.std.specs.Prelude.{◌≡◌, [], ◌∷◌, length};
ghost use Rattle.reading.specs.Told.{Logged};
ghost use Rattle.handover.specs.Reading.{ReadsWords, held_in, SameSlices};
ghost use Rattle.handover.specs.Scratch.{ShortOf};

use answers::Refusal;
use counting::Count;
use tables::copy_front;

// How many entries each table got.
#[derive(Clone, Copy)]
pub struct Counts {
    pub tokens: usize,
    pub actions: usize,
    pub operands: usize,
    pub levels: usize,
    pub labels: usize,
}

// The five tables that a reading fills. A label's entry is a word, or a struct.
#[derive(Drop)]
pub struct Tables<'a, L = u64> {
    pub tokens: &'a mut [u64],
    pub actions: &'a mut [u64],
    pub operands: &'a mut [u64],
    pub levels: &'a mut [u64],
    pub labels: &'a mut [L],
}

// The lowest of tables 0 to 2 with fewer places than entries. A level takes two words.
fn short_table(c: Count, actions: usize, operands: usize, levels: usize) -> Option<usize>
    ensures { ShortOf (actions ∷ operands ∷ levels ∷ []) (c.actions ∷ c.operands ∷ c.levels ∷ []) result }
{
    if actions < c.actions {
        return Some(0);
    }
    if operands < c.operands {
        return Some(1);
    }
    if levels < c.levels {
        return Some(2);
    }
    None
}

// Counts the entries of a text's log, and writes them into the tables if all have room; else row 8, and nothing is written.
pub fn read_log(text: &[u8], s: &[u64], log: &[u64], tables: &mut Tables) -> Result<Counts, Refusal>
    requires { Logged text.now (length tables.old.tokens.now) s.now log.now }
    ensures reads { ReadsWords text.now (held_in tables.old) (held_in tables.new) result }
    ensures same_slices { SameSlices tables.old tables.new }
{
    let c = counting::count_log(log);
    let level_places = tables.levels.len() / 2;
    if let Some(k) = short_table(c, tables.actions.len(), tables.operands.len(), level_places) {
        return Err(Refusal::TableShort(k));
    }
    let Some(m) = labelling::put_labels(text, s, log, c.labels, c.levels, tables.labels) else {
        return Err(Refusal::TableShort(3));
    };
    writing::write_tables(text, s, log, tables.actions, tables.operands, tables.levels);
    let n = s.len();
    copy_front(s, n, tables.tokens);
    Ok(Counts {
        tokens: n,
        actions: c.actions,
        operands: c.operands,
        levels: c.levels,
        labels: m,
    })
}
