// What a text was read as: each level with its labels, then each action with its operands.
#![tactic(auto)]

mod action;
mod layout;
mod level;
mod operand;
mod place;
mod typed;

use as2_pcode::Counts;
use columns::Columns;
use level_trees::Source;

// For a reading that was accepted, and the tables that it filled.
pub fn print_shown(rt: HostRuntime, of: Source, c: Counts) {
    let of = Source {
        tokens: lookups::words_from(of.tokens, 0, c.tokens),
        labels: lookups::words_from(of.labels, 0, c.labels),
        ..of
    };
    let mut out = Columns::new(rt);
    level::put_levels(&mut out, of, c.levels);
    action::put_actions(&mut out, of, c.actions);
    out.finish();
}
