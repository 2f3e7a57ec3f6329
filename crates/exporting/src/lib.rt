// Export over the tables of a reading: two passes of faults, then the bytes.
#![tactic(auto)]

ghost use Rattle.exporting.specs.Passes.{tables_of, TreeGiven, TreePassed, HeldIn, Roomy, PassedIn};

use action_records::Style;
use answers::Refusal;
use first_pass::first_pass;
use level_trees::{Source, actions_of};
use writer::{Plan, write_level};

// The second pass of faults, into no output: sizes and offsets are known only when every record has its place. If they fit, and the
// bytes do, they are written.
fn second_pass(
    source: Source,
    aims: &[u64],
    style: Style,
    place: &mut [u64],
    out: &mut [u8],
) -> Result<usize, Refusal>
    requires { TreeGiven (tables_of source aims.now) style place.old }
    ensures { TreePassed (tables_of source.entry aims.now) style place.old out.old out.new result }
{
    let n = actions_of(source.levels, 0);
    let p = Plan {
        source,
        aims,
        style,
    };
    let mut nothing = [0u8; 0];
    let measured = write_level(p, n, 0, 1, place, &mut nothing);
    let late = measured.late;
    let size = measured.byte;
    if late < 1048576 {
        return Err(Refusal::Uncodable(late));
    }
    if out.len() < size {
        return Err(Refusal::OutputShort(size));
    }
    write_level(p, n, 0, 1, place, out);
    Ok(size)
}

// The bytes of a text's movie, over the tables of its reading, and how many: 10 and 11, then 12; else they are written. A refusal writes none.
pub fn export_tables(
    source: Source,
    style: Style,
    aims: &mut [u64],
    index: &mut [u64],
    place: &mut [u64],
    out: &mut [u8],
) -> Result<usize, Refusal>
    requires held { HeldIn source }
    requires roomy { Roomy source.actions.now source.levels.now source.labels.now aims.old index.old place.old }
    ensures { PassedIn style source.entry out.old out.new result }
{
    first_pass(source, style, aims, index)?;
    second_pass(source, aims, style, place, out)
}
