// Reading a valid text over scratch for its tokens and its log, by the length of the text.
#![tactic(auto)]

ghost use Rattle.std.specs.Prelude.{◌≤◌, length};
ghost use Rattle.utf8.specs.Utf8.{valid_up_to};
ghost use Rattle.handover.specs.Reading.{ReadsWords as Reads, held_in, SameSlices};

use answers::Refusal;
use handover::{Counts, Tables, read_log};

// Reads over scratch of N places for the tokens and for the log.
#[inline(never)]
fn read_over<const N: usize>(text: &[u8], tables: &mut Tables) -> Result<Counts, Refusal>
    requires text_in_bounds { (length text.now ≤ N) × (N ≤ 65536) }
    requires text_len_bound { length text.now ≤ valid_up_to text.now }
    ensures reads { Reads text.now (held_in tables.old) (held_in tables.new) result }
    ensures same_slices { SameSlices tables.old tables.new }
{
    let mut s = [0u64; N];
    let mut log = [0u64; N];
    let room = tables.tokens.len();
    let parsed = reading::parse_text(text, room, &mut s, &mut log)?;
    let words = &s[..parsed.tokens];
    let events = &log[..parsed.events];
    read_log(text, words, events, tables)
}

// Reads a text that rows 1 and 2 do not refuse. A small text does not pay for the scratch of a large one.
pub fn read_valid(text: &[u8], tables: &mut Tables) -> Result<Counts, Refusal>
    requires text_len_bound { length text.now ≤ 65536 }
    requires text_len_bound_2 { length text.now ≤ valid_up_to text.now }
    ensures reads { Reads text.now (held_in tables.old) (held_in tables.new) result }
    ensures same_slices { SameSlices tables.old tables.new }
{
    if text.len() <= 1024 {
        return read_over::<1024>(text, tables);
    }
    if text.len() <= 4096 {
        return read_over::<4096>(text, tables);
    }
    if text.len() <= 16384 {
        return read_over::<16384>(text, tables);
    }
    read_over::<65536>(text, tables)
}
