// Walking a tree of levels by its table: the blocks of an action are the next levels, as long as they are its own.
#![tactic(auto)]

ghost use Rattle.std.specs.Prelude.{◌≡◌};
ghost use Rattle.entries.specs.Entries.{level_in};
ghost use Rattle.level_trees.specs.Held.{is_block_of};

use entries::{Block, level_in};

// A text and the tables of its reading, shared. What walks them takes this one value (the writer, the passes of export).
#[derive(Clone, Copy)]
pub struct Source<'a> {
    pub text: &'a [u8],
    pub tokens: &'a [u64],
    pub actions: &'a [u64],
    pub operands: &'a [u64],
    pub levels: &'a [u64],
    pub labels: &'a [u64],
}

fn owned_by(block: Block, action: usize) -> bool
    ensures { result ≡ is_block_of block action }
{
    match block {
        Block::Top => false,
        Block::Body(a) | Block::Try(a) | Block::Catch(a) | Block::Finally(a) => a == action,
    }
}

// Whether a level is a block of that action.
pub fn is_block_of(levels: &[u64], level: usize, action: usize) -> bool
    ensures { result ≡ is_block_of (level_in levels.now level).block action }
{
    let entry = level_in(levels, level);
    let block = entry.block;
    owned_by(block, action)
}

// How many actions of its own a level has.
pub fn actions_of(levels: &[u64], level: usize) -> usize
    ensures { result ≡ (level_in levels.now level).actions }
{
    level_in(levels, level).actions
}
