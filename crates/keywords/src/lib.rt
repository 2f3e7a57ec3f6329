// The kind of a word: a constant, a register, an action's name, a keyword or an identifier.
#![tactic(auto)]

ghost use Rattle.std.specs.Prelude.{◌≡◌, ◌≤◌};
ghost use Rattle.words.specs.Words.{find_in};
ghost use Rattle.keywords.specs.Keywords.{number_after, keyword_words, named, word_kind};

use tokens::TokenKind;
use words::Names;

// The letters of the keywords, one after another.
const LETTERS: [u8; 34] = *b"catchfalsefinallynulltrueundefined";

// Where each keyword starts in them, and their end.
const STARTS: [usize; 7] = [0, 5, 10, 17, 21, 25, 34];

const KINDS: [TokenKind; 6] = [
    TokenKind::Catch,
    TokenKind::False,
    TokenKind::Finally,
    TokenKind::Null,
    TokenKind::True,
    TokenKind::Undefined,
];

// The number that stands behind a prefix.
fn number_after(prefix: &[u8], top: u64, w: &[u8]) -> Option<u64>
    requires { top ≤ 65535 }
    ensures { result ≡ number_after prefix.now top w.now }
{
    let n = prefix.len();
    if w.len() < n {
        return None;
    }
    if !words::same_word(&w[..n], prefix) {
        return None;
    }
    numbers::parse_natural(top, &w[n..])
}

// The keyword that the word is.
fn find_keyword(w: &[u8]) -> Option<usize>
    ensures { result ≡ find_in w.now keyword_words }
{
    let i = words::find_between(w, &LETTERS, &STARTS, 0, 6);
    if i < 6 { Some(i) } else { None }
}

// A word that is neither a constant nor a register.
fn named_kind(w: &[u8], names: &Names) -> TokenKind
    ensures { result ≡ named w.now }
{
    if let Some(i) = words::find_name(w, names) {
        return TokenKind::ActionName(actions::action_at(i));
    }
    match find_keyword(w) {
        Some(j) => KINDS[j],
        None => TokenKind::Identifier,
    }
}

// The kind of a word.
pub fn word_kind(w: &[u8], names: &Names) -> TokenKind
    ensures { result ≡ word_kind w.now }
{
    let constant = number_after(b"constant", 65535, w);
    if let Some(n) = constant {
        return TokenKind::Constant(n as u16);
    }
    let register = number_after(b"register", 255, w);
    if let Some(n) = register {
        return TokenKind::Register(n as u8);
    }
    named_kind(w, names)
}
