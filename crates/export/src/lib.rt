// Export: the movie's own bytes of a text (document 02, §2).
#![tactic(auto)]

ghost use Rattle.std.specs.Prelude.{◌/◌, ◌≤◌, length};
ghost use Rattle.handover.specs.Reading.{held_in, SameSlices};
ghost use Rattle.held.specs.Held.{Ample, AmpleTokens, AmpleEntries};
ghost use Rattle.export.specs.Export.{Exports};
ghost use Rattle.export.specs.Parts.{HeldBy, PassedBy};

use action_records::Style;
use answers::Refusal;
use as2_pcode::{Counts, Tables};
use export_scratch::export_reading;
use held::{hand_tables, read_held};
use level_trees::Source;

// The counts of reading, and how many bytes were written.
#[derive(Clone, Copy)]
pub struct Exported {
    pub counts: Counts,
    pub bytes: usize,
}

// The passes over the entries that held tables hold.
fn pass_held(
    text: &[u8],
    c: Counts,
    held: &Tables,
    style: Style,
    out: &mut [u8],
) -> Result<usize, Refusal>
    requires { HeldBy c text.now (held_in held.now) }
    ensures { PassedBy style c text.now (held_in held.now) out.old out.new result }
{
    let source = Source {
        text,
        tokens: &held.tokens[..c.tokens],
        actions: &held.actions[..c.actions],
        operands: &held.operands[..c.operands],
        levels: &held.levels[..2 * c.levels],
        labels: &held.labels[..c.labels],
    };
    export_reading(source, style, out)
}

// Reads a text into held tables, and exports it from there.
fn export_held(
    text: &[u8],
    held: &mut Tables,
    tables: &mut Tables,
    style: Style,
    out: &mut [u8],
) -> Result<Exported, Refusal>
    requires { Ample (length text.now) (held_in held.old) }
    ensures exports { Exports style text.now (held_in tables.old) (held_in tables.new) out.old out.new result }
    ensures same_slices { SameSlices tables.old tables.new }
{
    let places = Counts {
        tokens: tables.tokens.len(),
        actions: tables.actions.len(),
        operands: tables.operands.len(),
        levels: tables.levels.len() / 2,
        labels: tables.labels.len(),
    };
    let counts = read_held(text, places, held)?;
    let bytes = pass_held(text, counts, held, style, out)?;
    hand_tables(counts, held, tables);
    Ok(Exported { counts, bytes })
}

// Over held tables of T tokens, of E actions, operands and labels each, and of L words for levels. Not inlined, since a small text is
// not to pay for the frame of a large one (docs/DECISIONS.md, 67).
#[inline(never)]
fn export_over<const T: usize, const E: usize, const L: usize>(
    text: &[u8],
    tables: &mut Tables,
    style: Style,
    out: &mut [u8],
) -> Result<Exported, Refusal>
    requires sizes { (T ≤ 65536) × ((E ≤ 65536) × (L ≤ 65538)) }
    requires ample { AmpleTokens (length text.now) T × (AmpleEntries (length text.now) E × AmpleEntries (length text.now) (L / 2)) }
    ensures exports { Exports style text.now (held_in tables.old) (held_in tables.new) out.old out.new result }
    ensures same_slices { SameSlices tables.old tables.new }
{
    let mut tokens = [0u64; T];
    let mut actions = [0u64; E];
    let mut operands = [0u64; E];
    let mut levels = [0u64; L];
    let mut labels = [0u64; E];
    let mut held = Tables {
        tokens: &mut tokens,
        actions: &mut actions,
        operands: &mut operands,
        levels: &mut levels,
        labels: &mut labels,
    };
    export_held(text, &mut held, tables, style, out)
}

// The bytes of a text's movie, at the front of the output, with the lent tables filled as by `read`; or one of reading's refusals, then
// 10 and 11 with the action, then 12 with the length needed, which change nothing.
pub fn export(
    text: &[u8],
    tables: &mut Tables,
    style: Style,
    out: &mut [u8],
) -> Result<Exported, Refusal>
    ensures exports { Exports style text.now (held_in tables.old) (held_in tables.new) out.old out.new result }
    ensures same_slices { SameSlices tables.old tables.new }
{
    if text.len() <= 1024 {
        return export_over::<1024, 513, 1026>(text, tables, style, out);
    }
    if text.len() <= 4096 {
        return export_over::<4096, 2049, 4098>(text, tables, style, out);
    }
    export_over::<65536, 32769, 65538>(text, tables, style, out)
}
