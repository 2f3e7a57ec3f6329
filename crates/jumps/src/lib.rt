// The label that an If or a Jump names, in its level: found by the index of the labels that reading fills in.
#![tactic(auto)]

ghost use Rattle.std.specs.Prelude.{◌≡◌, ◌<◌, take};
ghost use Rattle.labels.specs.Index.{Indexed};
ghost use Rattle.jumps.specs.Aims.{name_at, aim_in, aim_at};

use entries::{Label, action_in, label_of, label_word, operand_in};
use labels::{Merging, look_up};
use level_trees::Source;

// One more than the position of a label, or 0; and the index after the walk.
// No Option: the number is the word that stands in the lent table of aims, where 0 is nowhere (fixed memory).
#[derive(Clone, Copy)]
pub struct Aim {
    pub aim: usize,
    pub merging: Merging,
}

// Where a jump of that level goes, whose operand is that token. Labels of other levels are no targets.
pub fn aim_of(source: Source, t: Merging, index: &mut [u64], level: usize, token: usize) -> Aim
    requires indexed_2 { Indexed source.text.now source.tokens.now t.seed t.labels source.labels.now index.old }
    requires level_bound { (level < 16777216) × (token < 1048576) }
    ensures aimed { result.aim ≡ aim_in source.entry.text.now source.entry.tokens.now level (name_at source.entry.text.now source.entry.tokens.now token) (take t.labels source.entry.labels.now) }
    ensures kept { result.merging.labels ≡ t.labels }
    ensures indexed { Indexed source.entry.text.now source.entry.tokens.now result.merging.seed result.merging.labels source.entry.labels.now index.new }
{
    let Source {
        text,
        tokens,
        labels,
        ..
    } = source;
    let named = Label {
        level,
        token,
        position: 0,
    };
    let found = look_up(text, tokens, labels, t, index, label_word(named));
    let k = found.place;
    let merging = found.merging;
    if k < t.labels {
        let aim = label_of(labels[k]).position + 1;
        return Aim { aim, merging };
    }
    Aim { aim: 0, merging }
}

// Where action i goes, an If or a Jump.
pub fn aim_at(source: Source, t: Merging, index: &mut [u64], i: usize) -> Aim
    requires { Indexed source.text.now source.tokens.now t.seed t.labels source.labels.now index.old }
    ensures aimed { result.aim ≡ aim_at source.entry.text.now source.entry.tokens.now source.entry.actions.now source.entry.operands.now i (take t.labels source.entry.labels.now) }
    ensures kept { result.merging.labels ≡ t.labels }
    ensures indexed { Indexed source.entry.text.now source.entry.tokens.now result.merging.seed result.merging.labels source.entry.labels.now index.new }
{
    let a = action_in(source.actions, i);
    let token = operand_in(source.operands, a.first).token;
    aim_of(source, t, index, a.level, token)
}
