// What is looked up in the tables of a reading to show it.
#![tactic(auto)]

ghost use Rattle.std.specs.Prelude.{◌≡◌, length, take, drop};
ghost use Rattle.places.specs.Places.{line_at};
ghost use Rattle.tokens.specs.Tokens.{within, part as bytes_in};
ghost use Rattle.pcode.specs.Deltas.{answer};
ghost use Rattle.lookups.specs.Targets.{target_in};
ghost use Rattle.lookups.specs.Deltas.{delta_at};

use answers::Refusal;
use tokens::Span;

// The bytes of a text within bounds; none where these are out of order or past the end.
pub fn part(text: &[u8], s: Span) -> &[u8]
    ensures { result.now ≡ bytes_in text.now (within (length text.now) s) }
{
    let bounds = tokens::bounds_within(text.len(), s);
    let start = bounds.start;
    let end = bounds.end;
    &text[start..end]
}

// So many words of a table from one on, as far as it has them.
pub fn words_from(table: &[u64], first: usize, count: usize) -> &[u64]
    ensures { result.now ≡ take count (drop first table.now) }
{
    let rest = &table[first.min(table.len())..];
    &rest[..count.min(rest.len())]
}

// The line of a byte, from the line of one before it: only what lies between is gone through.
pub fn line_from(text: &[u8], from: usize, line: usize, to: usize) -> usize
    requires { line ≡ line_at text.now from }
    ensures { result ≡ line_at text.now to }
{
    if to < from {
        return places::line_at(text, to);
    }
    if text.len() < to {
        return places::line_at(text, to);
    }
    let more = places::line_at(&text[from..], to - from);
    line + (more - 1)
}

// The delta of action i.
pub fn delta_at(
    text: &[u8],
    tokens: &[u64],
    actions: &[u64],
    operands: &[u64],
    i: usize,
) -> Result<i32, Refusal>
    ensures { answer result ≡ delta_at text.now tokens.now actions.now operands.now i }
{
    let a = entries::action_in(actions, i);
    let name = a.name;
    let empty = nets::first_is_empty(text, tokens, operands, a.first, a.first + a.count);
    pcode::delta(name, a.count, empty)
}

// Where a jump goes: the position of the label of that level and name. Those of other levels are no targets.
pub fn target_of(
    text: &[u8],
    tokens: &[u64],
    labels: &[u64],
    level: usize,
    name: &[u8],
) -> Option<usize>
    ensures { result ≡ target_in text.now tokens.now level name.now labels.now }
{
    for word in labels {
        if label_names::is_named(text, tokens, level, name, *word) {
            let label = entries::label_of(*word);
            return Some(label.position);
        }
    }
    None
}
