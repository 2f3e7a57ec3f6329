// Reading: a text's tokens, actions, operands, levels and labels, in lent tables. From as2_pcode.rs.
#![tactic(auto)]

ghost use Rattle.handover.specs.Reading.{ReadsWords as Reads, held_in, SameSlices};

use answers::Refusal;
pub use handover::{Counts, Tables};

// Reads a text into the lent tables, or refuses it by rows 1 to 8.
pub fn read(text: &[u8], tables: &mut Tables) -> Result<Counts, Refusal>
    ensures reads { Reads text.now (held_in tables.old) (held_in tables.new) result }
    ensures same_slices { SameSlices tables.old tables.new }
{
    if 65536 < text.len() {
        return Err(Refusal::TooLong);
    }
    let valid = utf8::valid_up_to(text);
    if valid < text.len() {
        return Err(Refusal::NotUtf8(valid));
    }
    scratch::read_valid(text, tables)
}
