// Reading where the label table is a lent slice of label entries: thin functions over `as2_pcode::read`.
#![tactic(auto)]

ghost use Rattle.std.specs.Prelude.{◌≤◌, length};
ghost use Rattle.reading.specs.Tables.{label_entry};
ghost use Rattle.handover.specs.Reading.{Reads, lent, held_in, SameSlices};
ghost use Rattle.held.specs.Held.{AmpleEntries};
ghost use Rattle.entry_reading.specs.Words.{ReadsScratch};

use answers::Refusal;
use as2_pcode::{Counts, Tables};
use entries::Label;
use label_entries::put_labels;

// Reads for a label table of `room` places: the words of its labels go to scratch, which is cut to as many. The slices stand for
// `Tables` here: the checker does not cover a struct of some slices of another and a part of a third.
fn read_words(
    text: &[u8],
    tokens: &mut [u64],
    actions: &mut [u64],
    operands: &mut [u64],
    levels: &mut [u64],
    words: &mut [u64],
    room: usize,
) -> Result<Counts, Refusal>
    requires { AmpleEntries (length text.now) (length words.old) }
    ensures { ReadsScratch room text.now (lent tokens.old actions.old operands.old levels.old words.old) (lent tokens.new actions.new operands.new levels.new words.new) result }
{
    let n = room.min(words.len());
    let (labels, _) = words.split_at_mut(n);
    let mut cut = Tables {
        tokens,
        actions,
        operands,
        levels,
        labels,
    };
    as2_pcode::read(text, &mut cut)
}

// Over scratch of N places for the words of labels.
#[inline(never)]
fn read_over<const N: usize>(text: &[u8], tables: &mut Tables<Label>) -> Result<Counts, Refusal>
    requires size { N ≤ 65536 }
    requires ample { AmpleEntries (length text.now) N }
    ensures reads { Reads label_entry text.now (held_in tables.old) (held_in tables.new) result }
    ensures same_slices { SameSlices tables.old tables.new }
{
    let mut words = [0u64; N];
    let room = tables.labels.len();
    let reading = read_words(
        text,
        tables.tokens,
        tables.actions,
        tables.operands,
        tables.levels,
        &mut words,
        room,
    );
    let counts = reading?;
    put_labels(&words, counts.labels, tables.labels);
    Ok(counts)
}

// Reads a text into the lent tables, or refuses it by rows 1 to 8. The labels are entries, and row 8's places for them are
// the slice's. A small text does not pay for the scratch of a large one.
pub fn read_entries(text: &[u8], tables: &mut Tables<Label>) -> Result<Counts, Refusal>
    ensures reads { Reads label_entry text.now (held_in tables.old) (held_in tables.new) result }
    ensures same_slices { SameSlices tables.old tables.new }
{
    if text.len() <= 4096 {
        return read_over::<2049>(text, tables);
    }
    read_over::<32769>(text, tables)
}
