// Export over scratch of the reading's size.
#![tactic(auto)]

ghost use Rattle.std.specs.Prelude.{◌+◌, ◌≤◌, ◌<◌, length};
ghost use Rattle.exporting.specs.Passes.{HeldIn, PassedIn};

use action_records::Style;
use answers::Refusal;
use exporting::export_tables;
use level_trees::Source;

// Over scratch for A actions, for I places of the index of labels and for P records. Not inlined, since a small text is not to pay for
// the frame of a large one (docs/DECISIONS.md, 67).
#[inline(never)]
fn export_over<const A: usize, const I: usize, const P: usize>(
    source: Source,
    style: Style,
    out: &mut [u8],
) -> Result<usize, Refusal>
    requires held { HeldIn source }
    requires for_aims { (length source.actions.now ≤ A) × (A ≤ 131072) }
    requires for_index { (length source.labels.now < I) × (I ≤ 131072) }
    requires for_place { (length source.actions.now + length source.levels.now ≤ P) × (P ≤ 131072) }
    ensures { PassedIn style source.entry out.old out.new result }
{
    let mut aims = [0u64; A];
    let mut index = [0u64; I];
    let mut place = [0u64; P];
    export_tables(source, style, &mut aims, &mut index, &mut place, out)
}

// The bytes of the text that was read into these tables, which hold the reading and nothing more.
pub fn export_reading(source: Source, style: Style, out: &mut [u8]) -> Result<usize, Refusal>
    requires { HeldIn source }
    ensures { PassedIn style source.entry out.old out.new result }
{
    let entries = source.actions.len() + source.levels.len() + source.labels.len();
    if entries <= 512 {
        return export_over::<512, 513, 512>(source, style, out);
    }
    if entries <= 4096 {
        return export_over::<4096, 4097, 4096>(source, style, out);
    }
    export_over::<32769, 32770, 98307>(source, style, out)
}
