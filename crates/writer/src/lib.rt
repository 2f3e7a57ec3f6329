// The records of a level, its bodies written straight into their places: each is lent the part behind its record. What does not fit the
// output is not stored, but counted.
#![tactic(auto)]

ghost use Rattle.std.specs.Prelude.{◌≡◌, true, ◌≤◌, min, length};
ghost use Rattle.std.proofs.lemmas.List.Edits.{sets};
ghost use Rattle.action_records.specs.Fields.{is16};
ghost use Rattle.entries.specs.Entries.{level_in};
ghost use Rattle.classes.specs.Lexemes.{Sound};
ghost use Rattle.filling.specs.Filling.{filled, unless};
ghost use Rattle.writer.specs.Writing.{tables_of, head_in, coded_in, LevelGiven, LevelWritten, ActionGiven, ActionWritten, BlockGiven, BlockWritten};

use action_records::Style;
use coding::put_record;
use entries::{action_in, level_in};
use filling::{aim_jumps, fill_block, mark, unless_holds};
use level_trees::{Source, actions_of, is_block_of};
use list_coding::Operands;

// What is written: the tables of a reading, where each action jumps to, and the style.
#[derive(Clone, Copy)]
pub struct Plan<'a> {
    pub source: Source<'a>,
    pub aims: &'a [u64],
    pub style: Style,
}

// The next action and level, how many bytes were written, and the lowest action with a size or an offset out of its field
// (1,048,576 for none, so that the lowest is a min).
#[derive(Clone, Copy)]
pub struct At {
    pub action: usize,
    pub level: usize,
    pub byte: usize,
    pub late: usize,
}

// The record of action a with its sizes and its offset 0, at the output's front; its length.
fn put_head(p: Plan, a: usize, out: &mut [u8]) -> usize
    requires { Sound p.source.text.now p.source.tokens.now × (coded_in (tables_of p) p.style a ≡ true) }
    ensures out_after { out.new ≡ sets out.old 0 (head_in (tables_of p.entry) p.entry.style a) }
    ensures value { result ≡ length (head_in (tables_of p.entry) p.entry.style a) }
{
    let action = action_in(p.source.actions, a);
    let o = Operands {
        text: p.source.text,
        tokens: p.source.tokens,
        operands: p.source.operands,
        action,
    };
    put_record(o, p.style, out).end
}

// The size of a level, in its action's record of r bytes at the output's front.
fn fill_size(levels: &[u64], level: usize, r: usize, size: usize, out: &mut [u8])
    requires { 2 ≤ r }
    ensures { out.new ≡ filled (level_in levels.now level).block r size out.old }
{
    let entry = level_in(levels, level);
    let block = entry.block;
    fill_block(out, block, r, size);
}

// The lowest of those told before, action a if its body's size does not fit, and those told in the body.
fn with_body(late: usize, a: usize, size: usize, inside: usize) -> usize
    ensures { result ≡ min late (min (unless (is16 size) a) inside) }
{
    late.min(unless_holds(size < 65536, a).min(inside))
}

// The records of a level's n actions, the first of them a, its first body level m; `place` is room to work in.
#[cycle(write_action_write_block_write_level)]
pub fn write_level(p: Plan, n: usize, a: usize, m: usize, place: &mut [u64], out: &mut [u8]) -> At
    requires { LevelGiven (tables_of p) p.style n a m place.old }
    ensures { LevelWritten (tables_of p.entry) p.entry.style n a m place.old out.old out.new result }
{
    let mut at = At {
        action: a,
        level: m,
        byte: 0,
        late: 1048576,
    };
    for k in 0..n {
        mark(place, k, at.byte, at.action);
        let start = at.byte.min(out.len());
        let next = write_action(
            p,
            at.action,
            at.level,
            &mut place[n + 1..],
            &mut out[start..],
        );
        at = At {
            action: next.action,
            level: next.level,
            byte: at.byte + next.byte,
            late: at.late.min(next.late),
        };
    }
    mark(place, n, at.byte, at.action);
    let far = aim_jumps(p.aims, place, n, out);
    At {
        action: at.action,
        level: at.level,
        byte: at.byte,
        late: far.min(at.late),
    }
}

// The next level, a block of action a, behind what is written so far; its size goes into the record of r bytes.
#[cycle(write_action_write_block_write_level)]
fn write_block(p: Plan, a: usize, r: usize, at: At, place: &mut [u64], out: &mut [u8]) -> At
    requires { BlockGiven (tables_of p) p.style a r at place.old }
    ensures { BlockWritten (tables_of p.entry) p.entry.style a r at place.old out.old out.new result }
{
    let level = at.level;
    let byte = at.byte;
    let levels = p.source.levels;
    let n = actions_of(levels, level);
    let start = byte.min(out.len());
    let body = write_level(p, n, at.action, level + 1, place, &mut out[start..]);
    let size = body.byte;
    fill_size(levels, level, r, size, out);
    At {
        action: body.action,
        level: body.level,
        byte: byte + size,
        late: with_body(at.late, a, size, body.late),
    }
}

// The record of action a, and its bodies in the part behind it.
#[cycle(write_action_write_block_write_level)]
fn write_action(p: Plan, a: usize, m: usize, place: &mut [u64], out: &mut [u8]) -> At
    requires { ActionGiven (tables_of p) p.style a m place.old }
    ensures { ActionWritten (tables_of p.entry) p.entry.style a m place.old out.old out.new result }
{
    let r = put_head(p, a, out);
    let mut at = At {
        action: a + 1,
        level: m,
        byte: r,
        late: 1048576,
    };
    while is_block_of(p.source.levels, at.level, a) {
        at = write_block(p, a, r, at, place, out);
    }
    at
}
