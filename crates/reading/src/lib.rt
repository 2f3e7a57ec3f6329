// From a text to its tokens and a log of its events.
#![tactic(auto)]

ghost use Rattle.std.specs.Prelude.{◌≤◌, length};
ghost use Rattle.utf8.specs.Utf8.{valid_up_to};
ghost use Rattle.reading.specs.Told.{Parses};

use answers::Refusal;
use operands::{At, Unread};

// How many tokens and events there are.
#[derive(Clone, Copy)]
pub struct Parsed {
    pub tokens: usize,
    pub events: usize,
}

// Lexes and parses a text of UTF-8 whose tokens get `room` places in the end, or refusals 3 to 7.
pub fn parse_text(
    text: &[u8],
    room: usize,
    s: &mut [u64],
    log: &mut [u64],
) -> Result<Parsed, Refusal>
    requires text_len_bound { length text.now ≤ 65536 }
    requires text_len_bound_2 { length text.now ≤ valid_up_to text.now }
    requires text_in_bounds { (length text.now ≤ length s.old) × (length text.now ≤ length log.old) }
    ensures { Parses text.now room s.new log.new result }
{
    let tokens = lexer::lex_into(text, s)?;
    if room < tokens {
        return Err(Refusal::TokenTableShort(tokens));
    }
    match parser::parse(text, &s[..tokens], &mut log[..tokens]) {
        Ok(At { events, .. }) => Ok(Parsed { tokens, events }),
        Err(Unread::Bad(k)) => Err(Refusal::NotGrammatical(k)),
        Err(Unread::Deep(k)) => Err(Refusal::TooDeep(k)),
    }
}
