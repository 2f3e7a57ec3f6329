// Export as the programs that try it call it: into the front of each table and of the output. It promises nothing of what is written, so
// that a check of such a program does not go through what `export` promises. With it what those programs look at afterwards: marked
// tables and outputs.
#![tactic(auto)]

ghost use Rattle.handover.specs.Reading.{held_in, SameSlices};
ghost use Rattle.held.specs.Held.{SameLengths};

use action_records::Style;
use answers::Refusal;
use as2_pcode::{Counts, Tables};
use export::Exported;

// What is asked: how a text is exported, and how many places of the tables and of the output are lent.
#[derive(Clone, Copy)]
pub struct Asked<'a> {
    pub text: &'a [u8],
    pub lent: Counts,
    pub room: usize,
    pub style: Style,
}

// The slices stand for `Tables` here: the checker does not cover parts of a struct's slices that are lent at once.
fn export_parts(
    asked: Asked,
    tokens: &mut [u64],
    actions: &mut [u64],
    operands: &mut [u64],
    levels: &mut [u64],
    labels: &mut [u64],
    out: &mut [u8],
) -> Result<Exported, Refusal> {
    let a = asked.lent.tokens.min(tokens.len());
    let b = asked.lent.actions.min(actions.len());
    let c = asked.lent.operands.min(operands.len());
    let d = asked.lent.levels.min(levels.len());
    let e = asked.lent.labels.min(labels.len());
    let n = asked.room.min(out.len());
    let (tokens, _) = tokens.split_at_mut(a);
    let (actions, _) = actions.split_at_mut(b);
    let (operands, _) = operands.split_at_mut(c);
    let (levels, _) = levels.split_at_mut(d);
    let (labels, _) = labels.split_at_mut(e);
    let mut fronts = Tables {
        tokens,
        actions,
        operands,
        levels,
        labels,
    };
    export::export(asked.text, &mut fronts, asked.style, &mut out[..n])
}

// As many words of each table are lent as is asked, of levels too; a table, or an output, that is shorter is lent whole.
pub fn export_fronts(asked: Asked, tables: &mut Tables, out: &mut [u8]) -> Result<Exported, Refusal>
    ensures same_slices { SameSlices tables.old tables.new }
    ensures same_lengths { SameLengths (held_in tables.old) (held_in tables.new) }
{
    export_parts(
        asked,
        tables.tokens,
        tables.actions,
        tables.operands,
        tables.levels,
        tables.labels,
        out,
    )
}

// The front of some bytes; all, where they are fewer.
pub fn front(bytes: &[u8], n: usize) -> &[u8] {
    let end = n.min(bytes.len());
    &bytes[..end]
}

// ---- answers as two numbers

// A refusal's number; 0 where bytes were written.
pub fn answer_number(told: Result<Exported, Refusal>) -> u64 {
    match told {
        Ok(_) => 0,
        Err(r) => answers::refusal_number(r),
    }
}

// A refusal's place, or how many bytes were written.
pub fn answer_place(told: Result<Exported, Refusal>) -> usize {
    match told {
        Ok(exported) => exported.bytes,
        Err(r) => answers::refusal_place(r),
    }
}

// ---- marks

// What a table and an output hold before a call, all over: a word that no entry is.
pub const MARK: u64 = 0xA5A5_A5A5_A5A5_A5A5;

pub const MARK_BYTE: u8 = 0xA5;

pub fn is_marked(table: &[u64]) -> bool {
    table.iter().all(|w| *w == MARK)
}

// Whether an output holds the mark from a place on.
pub fn is_marked_from(out: &[u8], from: usize) -> bool {
    for b in out.iter().skip(from) {
        if *b != MARK_BYTE {
            return false;
        }
    }
    true
}

// What a call left: the tables and the output.
#[derive(Clone, Copy)]
pub struct Left<'a> {
    pub tokens: &'a [u64],
    pub actions: &'a [u64],
    pub operands: &'a [u64],
    pub levels: &'a [u64],
    pub labels: &'a [u64],
    pub out: &'a [u8],
}

// Whether a call changed nothing: every table and the output hold the mark all over.
pub fn are_marked(left: Left) -> bool {
    is_marked(left.tokens)
        && is_marked(left.actions)
        && is_marked(left.operands)
        && is_marked(left.levels)
        && is_marked(left.labels)
        && is_marked_from(left.out, 0)
}

// Whether two calls filled the tables alike. An == of the structs would compare the outputs too, which are not always there.
pub fn same_tables(a: Left, b: Left) -> bool {
    a.tokens == b.tokens
        && a.actions == b.actions
        && a.operands == b.operands
        && a.levels == b.levels
        && a.labels == b.labels
}
