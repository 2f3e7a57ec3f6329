// The name of a label, and whether a label is of a level and a name.
#![tactic(auto)]

ghost use Rattle.std.specs.Prelude.{◌≡◌};
ghost use Rattle.lexemes.specs.Lexemes.{same_name};
ghost use Rattle.label_names.specs.Names.{name_of, is_named};

use entries::{label_of, token_in};
use tokens::raw_text;

// Names compare byte for byte.
pub fn same_bytes(a: &[u8], b: &[u8]) -> bool
    ensures { result ≡ same_name a.now b.now }
{
    a == b
}

// The name of the label w.
pub fn name_of<'a>(text: &'a [u8], s: &[u64], w: u64) -> &'a [u8]
    ensures { result.now ≡ name_of text.now s.now w }
{
    let t = token_in(s, label_of(w).token);
    raw_text(text, t)
}

// Whether the label v is of that level and name.
pub fn is_named(text: &[u8], s: &[u64], level: usize, name: &[u8], v: u64) -> bool
    ensures { result ≡ is_named text.now s.now level name.now v }
{
    level == label_of(v).level && same_bytes(name, name_of(text, s, v))
}
