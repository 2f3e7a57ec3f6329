// Checking a text: it is read into held tables that go by its length, and only the answer is left.
#![tactic(auto)]

ghost use Rattle.std.specs.Prelude.{◌/◌, ◌≤◌, length};
ghost use Rattle.handover.specs.Reading.{places_of};
ghost use Rattle.held.specs.Held.{AmpleTokens, AmpleEntries};
ghost use Rattle.checking.specs.Checks.{Checks};

use answers::Refusal;
use as2_pcode::{Counts, Tables};
use held::read_held;

// Over held tables of T tokens, of E actions, operands and labels each, and of L words for levels.
#[inline(never)]
fn check_over<const T: usize, const E: usize, const L: usize>(
    text: &[u8],
    places: Counts,
) -> Result<Counts, Refusal>
    requires sizes { (T ≤ 65536) × ((E ≤ 65536) × (L ≤ 65538)) }
    requires ample { AmpleTokens (length text.now) T × (AmpleEntries (length text.now) E × AmpleEntries (length text.now) (L / 2)) }
    ensures { Checks places.tokens (places_of places) text.now result }
{
    let mut tokens = [0u64; T];
    let mut actions = [0u64; E];
    let mut operands = [0u64; E];
    let mut levels = [0u64; L];
    let mut labels = [0u64; E];
    let mut held = Tables {
        tokens: &mut tokens,
        actions: &mut actions,
        operands: &mut operands,
        levels: &mut levels,
        labels: &mut labels,
    };
    read_held(text, places, &mut held)
}

// What reading would answer with tables of so many places; nothing is lent, and nothing written. A small text does not pay for the
// tables of a large one.
pub fn check(text: &[u8], places: Counts) -> Result<Counts, Refusal>
    ensures { Checks places.tokens (places_of places) text.now result }
{
    if text.len() <= 1024 {
        return check_over::<1024, 513, 1026>(text, places);
    }
    if text.len() <= 4096 {
        return check_over::<4096, 2049, 4098>(text, places);
    }
    check_over::<65536, 32769, 65538>(text, places)
}
