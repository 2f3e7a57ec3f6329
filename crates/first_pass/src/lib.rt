// The first pass of faults of export: the first action whose jump has no label in its level, or whose record cannot be coded.
#![tactic(auto)]

ghost use Rattle.std.specs.Prelude.{◌≡◌, ◌&&◌, ◌≤◌, ◌<◌, eqb, length, IfOk};
ghost use Rattle.shapes.specs.Shapes.{shape_of};
ghost use Rattle.classes.specs.Lexemes.{Sound};
ghost use Rattle.labels.specs.Index.{Distinct, Indexed};
ghost use Rattle.movies.specs.Meaning.{is_jump};
ghost use Rattle.coding.specs.Heads.{operands_at, head_holds};
ghost use Rattle.coding.specs.Operands.{Small};
ghost use Rattle.first_pass.specs.First.{first_from};
ghost use Rattle.first_pass.specs.Faults.{fault_of, aim_for, fault_for, Aimed};

use action_records::Style;
use answers::Refusal;
use coding::put_record;
use entries::{Action, action_in};
use jumps::{Aim, aim_at};
use labels::{Merging, index_labels};
use level_trees::Source;
use list_coding::Operands;
use names::ActionName;
use shapes::{Shape, shape_of};

// Whether an action is an If or a Jump.
fn is_jump(name: ActionName) -> bool
    ensures { result ≡ is_jump (shape_of name) }
{
    matches!(shape_of(name), Shape::Identifier)
}

// Where action i jumps to; 0 for nowhere.
fn find_aim(source: Source, t: Merging, index: &mut [u64], i: usize) -> Aim
    requires { Indexed source.text.now source.tokens.now t.seed t.labels source.labels.now index.old × (t.labels ≡ length source.labels.now) }
    ensures aimed { result.aim ≡ aim_for source.entry.text.now source.entry.tokens.now source.entry.actions.now source.entry.operands.now source.entry.labels.now i }
    ensures indexed { Indexed source.entry.text.now source.entry.tokens.now result.merging.seed result.merging.labels source.entry.labels.now index.new × (result.merging.labels ≡ length source.entry.labels.now) }
{
    let name = action_in(source.actions, i).name;
    if is_jump(name) {
        return aim_at(source, t, index, i);
    }
    Aim { aim: 0, merging: t }
}

// Whether an action's record can be coded: it is measured into no output.
fn is_codable(source: Source, action: Action, style: Style) -> bool
    requires sound { Sound source.text.now source.tokens.now }
    requires small { Small action }
    ensures { result ≡ head_holds style action.name (operands_at source.entry.text.now source.entry.tokens.now source.entry.operands.now action.first action.count) }
{
    let o = Operands {
        text: source.text,
        tokens: source.tokens,
        operands: source.operands,
        action,
    };
    let mut nothing = [0u8; 0];
    put_record(o, style, &mut nothing).holds
}

// Whether an action is a jump that leads nowhere.
fn is_lost(name: ActionName, aim: usize) -> bool
    ensures { result ≡ (is_jump (shape_of name) && eqb aim 0) }
{
    is_jump(name) && aim == 0
}

// The fault of action i, which jumps to `aim`.
#[tactic(auto, unfolding(crate::specs::Faults::fault_of))]
fn fault_of(
    source: Source,
    i: usize,
    action: Action,
    style: Style,
    aim: usize,
) -> Result<(), Refusal>
    requires sound { Sound source.text.now source.tokens.now }
    requires small { Small action }
    ensures { result ≡ fault_of style source.entry.text.now source.entry.tokens.now source.entry.operands.now i action aim }
{
    if is_lost(action.name, aim) {
        return Err(Refusal::NoLabel(i));
    }
    if is_codable(source, action, style) {
        Ok(())
    } else {
        Err(Refusal::Uncodable(i))
    }
}

// The first fault, if there is one. Where each action jumps to is put into `aims`.
pub fn first_pass(
    source: Source,
    style: Style,
    aims: &mut [u64],
    index: &mut [u64],
) -> Result<(), Refusal>
    requires sound { Sound source.text.now source.tokens.now × Distinct source.text.now source.tokens.now source.labels.now }
    requires actions_in_bounds { (length source.actions.now ≤ length aims.old) × ((length source.labels.now < length index.old) × (length index.old < 4294967296)) }
    ensures first { result ≡ first_from (fault_for source.entry.text.now source.entry.tokens.now source.entry.actions.now source.entry.operands.now source.entry.labels.now style) 0 (length source.entry.actions.now) }
    ensures aimed { IfOk result (λ _. Aimed source.entry.text.now source.entry.tokens.now source.entry.actions.now source.entry.operands.now source.entry.labels.now (length source.entry.actions.now) aims.new) }
{
    let Source {
        text,
        tokens,
        actions,
        labels,
        ..
    } = source;
    let mut t = index_labels(text, tokens, labels, labels.len(), index);
    for i in 0..actions.len() {
        let found = find_aim(source, t, index, i);
        t = found.merging;
        aims[i] = found.aim as u64;
        fault_of(source, i, action_in(actions, i), style, found.aim)?;
    }
    Ok(())
}
