// Labels in a lent slice of label entries: look-up by number and by name, and the entries made of a table's words.
#![tactic(auto)]

ghost use Rattle.std.specs.Prelude.{◌≡◌, ◌++◌, map, ◌≤◌, length, take, drop, position, get_or};
ghost use Rattle.entries.specs.Entries.{label_of};
ghost use Rattle.label_entries.specs.Labels.{no_label, is_named};

use entries::{Label, label_in, token_in};
use label_names::same_bytes;
use tokens::raw_text;

// Whether a label is of that level and has that name.
fn is_named(text: &[u8], tokens: &[u64], label: Label, level: usize, name: &[u8]) -> bool
    ensures { result ≡ is_named text.now tokens.now level name.now label }
{
    if label.level != level {
        return false;
    }
    let token = token_in(tokens, label.token);
    same_bytes(raw_text(text, token), name)
}

// The label of a number; past the end that of the word 0, as in a table of words.
pub fn label_at(labels: &[Label], at: usize) -> Label
    ensures { result ≡ get_or labels.now at no_label }
{
    if at < labels.len() {
        return labels[at];
    }
    Label {
        level: 0,
        token: 0,
        position: 0,
    }
}

// The number of the first label of a level and a name.
pub fn find_label(
    text: &[u8],
    tokens: &[u64],
    labels: &[Label],
    level: usize,
    name: &[u8],
) -> Option<usize>
    ensures { result ≡ position (is_named text.now tokens.now level name.now) labels.now }
{
    labels
        .iter()
        .position(|label| is_named(text, tokens, *label, level, name))
}

// The labels of the first n words, put at the start of the slice; what stands behind them stays.
pub fn put_labels(words: &[u64], n: usize, labels: &mut [Label])
    requires { (n ≤ length words.now) × (n ≤ length labels.old) }
    ensures { labels.new ≡ map label_of (take n words.now) ++ drop n labels.old }
{
    for i in 0..n {
        labels[i] = label_in(words, i);
    }
}
