// What C is told of the entries of the tables, and of a reading: its numbers in `out` arrays.
#![tactic(auto)]

ghost use Rattle.std.specs.Prelude.{◌≡◌};
ghost use Rattle.c_entries.specs.Entries.{action_after, operand_after, block_part, net_kind, net_action, net_height, level_after, height_after, label_after, read_number, read_after};

use answers::Refusal;
use entries::{Action, Block, Label, Level, Net, Operand, owner_of};
use handover::Counts;

pub fn tell_action(action: Action, out: &mut [u64; 4])
    ensures { out.new ≡ action_after action out.old }
{
    let name = action.name;
    out[0] = actions::action_number(name) as u64;
    out[1] = action.level as u64;
    out[2] = action.first as u64;
    out[3] = action.count as u64;
}

pub fn tell_operand(operand: Operand, out: &mut [u64; 3])
    ensures { out.new ≡ operand_after operand out.old }
{
    out[0] = operand.action as u64;
    out[1] = operand.token as u64;
    out[2] = u64::from(operand.unclosed);
}

pub fn tell_label(label: Label, out: &mut [u64; 3])
    ensures { out.new ≡ label_after label out.old }
{
    out[0] = label.level as u64;
    out[1] = label.token as u64;
    out[2] = label.position as u64;
}

// ---- a level; the numbers of its block and of its net are 0 where there is none

// The numbers are those of pcode.h, so they stand here and not at the enum.
fn block_part(b: Block) -> u64
    ensures { result ≡ block_part b }
{
    match b {
        Block::Top => 0,
        Block::Body(_) => 1,
        Block::Try(_) => 2,
        Block::Catch(_) => 3,
        Block::Finally(_) => 4,
    }
}

// Which kind of net, its first undetermined action, and its height.
fn net_told(n: Net) -> (u64, u64, i64)
    ensures { (result.0 ≡ net_kind n) × ((result.1 ≡ net_action n) × (result.2 ≡ net_height n)) }
{
    match n {
        Net::Height(height) => (0, 0, height),
        Net::Undetermined(action) => (1, action as u64, 0),
    }
}

pub fn tell_level(level: Level, out: &mut [u64; 6], height: &mut [i64; 1])
    ensures out_after { out.new ≡ level_after level out.old }
    ensures height_after { height.new ≡ height_after level height.old }
{
    let block = level.block;
    let (kind, action, net_height) = net_told(level.net);
    out[0] = block_part(block);
    out[1] = owner_of(block) as u64;
    out[2] = level.actions as u64;
    out[3] = kind;
    out[4] = action;
    out[5] = level.unclosed as u64;
    height[0] = net_height;
}

// ---- reading

pub fn tell_reading(answer: Result<Counts, Refusal>, out: &mut [u64; 5]) -> u64
    ensures value { result ≡ read_number answer }
    ensures out_after { out.new ≡ read_after answer out.old }
{
    match answer {
        Ok(c) => {
            out[0] = c.tokens as u64;
            out[1] = c.actions as u64;
            out[2] = c.operands as u64;
            out[3] = c.levels as u64;
            out[4] = c.labels as u64;
            0
        }
        Err(r) => {
            out[0] = answers::refusal_place(r) as u64;
            answers::refusal_number(r)
        }
    }
}
