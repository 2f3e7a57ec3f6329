// Reading as the programs that try it call it: into whole tables, or into the front of each. It promises nothing of what is read, so
// that a check of such a program does not go through what `as2_pcode` promises of a reading.
#![tactic(auto)]

ghost use Rattle.handover.specs.Reading.{held_in, SameSlices};
ghost use Rattle.held.specs.Held.{SameLengths};

use answers::Refusal;
use as2_pcode::{Counts, Tables};

fn read_slices(
    text: &[u8],
    tokens: &mut [u64],
    actions: &mut [u64],
    operands: &mut [u64],
    levels: &mut [u64],
    labels: &mut [u64],
) -> Result<Counts, Refusal> {
    let mut tables = Tables {
        tokens,
        actions,
        operands,
        levels,
        labels,
    };
    as2_pcode::read(text, &mut tables)
}

// The slices are lent one by one, since of those the checker knows that they keep their lengths.
pub fn read_whole(text: &[u8], tables: &mut Tables) -> Result<Counts, Refusal>
    ensures same_slices { SameSlices tables.old tables.new }
    ensures same_lengths { SameLengths (held_in tables.old) (held_in tables.new) }
{
    read_slices(
        text,
        tables.tokens,
        tables.actions,
        tables.operands,
        tables.levels,
        tables.labels,
    )
}

// The slices stand for `Tables` here: the checker does not cover parts of a struct's slices that are lent at once.
fn read_parts(
    text: &[u8],
    lent: Counts,
    tokens: &mut [u64],
    actions: &mut [u64],
    operands: &mut [u64],
    levels: &mut [u64],
    labels: &mut [u64],
) -> Result<Counts, Refusal> {
    let a = lent.tokens.min(tokens.len());
    let b = lent.actions.min(actions.len());
    let c = lent.operands.min(operands.len());
    let d = lent.levels.min(levels.len());
    let e = lent.labels.min(labels.len());
    let (tokens, _) = tokens.split_at_mut(a);
    let (actions, _) = actions.split_at_mut(b);
    let (operands, _) = operands.split_at_mut(c);
    let (levels, _) = levels.split_at_mut(d);
    let (labels, _) = labels.split_at_mut(e);
    let mut fronts = Tables {
        tokens,
        actions,
        operands,
        levels,
        labels,
    };
    as2_pcode::read(text, &mut fronts)
}

// As many words of each table are lent as `lent` says, of levels too; a table that is shorter is lent whole.
pub fn read_fronts(text: &[u8], lent: Counts, tables: &mut Tables) -> Result<Counts, Refusal>
    ensures same_slices { SameSlices tables.old tables.new }
    ensures same_lengths { SameLengths (held_in tables.old) (held_in tables.new) }
{
    read_parts(
        text,
        lent,
        tables.tokens,
        tables.actions,
        tables.operands,
        tables.levels,
        tables.labels,
    )
}
