// Reading into tables that a call holds itself, with the answer for tables that are lent: for calls that may still refuse a text
// that reading accepts, and must then have changed nothing. Such a call reads by `read_held`, does its work, and hands over by
// `hand_held` or, of tables that are one value, `hand_tables`.
#![tactic(auto)]

ghost use Rattle.std.specs.Prelude.{◌≡◌, length};
ghost use Rattle.handover.specs.Reading.{lent, held_in, places_of, SameSlices};
ghost use Rattle.held.specs.Held.{Ample, Holds, SameLengths, Handable, handed};

use answers::Refusal;
use as2_pcode::{Counts, Tables};
use tables::copy_front;

// The slices stand for `Tables` here: the checker does not cover parts of a struct's slices that are lent at once.
fn read_slices(
    text: &[u8],
    places: Counts,
    tokens: &mut [u64],
    actions: &mut [u64],
    operands: &mut [u64],
    levels: &mut [u64],
    labels: &mut [u64],
) -> Result<Counts, Refusal>
    requires { Ample (length text.now) (lent tokens.old actions.old operands.old levels.old labels.old) }
    ensures { Holds places.tokens (places_of places) text.now (lent tokens.new actions.new operands.new levels.new labels.new) result }
{
    let t = places.tokens.min(tokens.len());
    let a = places.actions.min(actions.len());
    let o = places.operands.min(operands.len());
    let l = places.levels.min(levels.len() / 2);
    let b = places.labels.min(labels.len());
    let (tokens, _) = tokens.split_at_mut(t);
    let (actions, _) = actions.split_at_mut(a);
    let (operands, _) = operands.split_at_mut(o);
    let (levels, _) = levels.split_at_mut(2 * l);
    let (labels, _) = labels.split_at_mut(b);
    let mut cut = Tables {
        tokens,
        actions,
        operands,
        levels,
        labels,
    };
    as2_pcode::read(text, &mut cut)
}

// Reads a text into held tables, which have places for whatever it can have, with the answer for tables of so many places: each
// is cut to as many, so that rows 5 and 8 come out right. A level takes two words.
pub fn read_held(text: &[u8], places: Counts, held: &mut Tables) -> Result<Counts, Refusal>
    requires { Ample (length text.now) (held_in held.old) }
    ensures holds { Holds places.tokens (places_of places) text.now (held_in held.new) result }
    ensures same_slices { SameSlices held.old held.new }
    ensures same_lengths { SameLengths (held_in held.old) (held_in held.new) }
{
    read_slices(
        text,
        places,
        held.tokens,
        held.actions,
        held.operands,
        held.levels,
        held.labels,
    )
}

// Hands that many entries of the held tables over to the lent ones. The held tables are only read, so that a caller may have them as
// shared slices, one for two of them if it likes.
pub fn hand_held(
    counts: Counts,
    held_tokens: &[u64],
    held_actions: &[u64],
    held_operands: &[u64],
    held_levels: &[u64],
    held_labels: &[u64],
    tables: &mut Tables,
)
    requires { Handable counts (lent held_tokens.now held_actions.now held_operands.now held_levels.now held_labels.now) (held_in tables.old) }
    ensures hands_over { held_in tables.new ≡ handed counts (lent held_tokens.now held_actions.now held_operands.now held_levels.now held_labels.now) (held_in tables.old) }
    ensures same_slices { SameSlices tables.old tables.new }
{
    copy_front(held_tokens, counts.tokens, tables.tokens);
    copy_front(held_actions, counts.actions, tables.actions);
    copy_front(held_operands, counts.operands, tables.operands);
    copy_front(held_levels, 2 * counts.levels, tables.levels);
    copy_front(held_labels, counts.labels, tables.labels);
}

// The same of held tables that are one value.
pub fn hand_tables(counts: Counts, from: &Tables, tables: &mut Tables)
    requires { Handable counts (held_in from.now) (held_in tables.old) }
    ensures hands_over { held_in tables.new ≡ handed counts (held_in from.now) (held_in tables.old) }
    ensures same_slices { SameSlices tables.old tables.new }
{
    hand_held(
        counts,
        from.tokens,
        from.actions,
        from.operands,
        from.levels,
        from.labels,
        tables,
    );
}
