// The lexer: all tokens of a text, or refusals 1 to 5. From lexer.rs.
#![tactic(auto)]

ghost use Rattle.std.specs.Prelude.{◌≡◌, ◌-◌, ◌≤◌, ◌<◌, length, drop};
ghost use Rattle.first_token.specs.First.{first};
ghost use Rattle.first_token.specs.Fitting.{Fitting};
ghost use Rattle.lexer.specs.Lexing.{Lexes};
ghost use Rattle.lexer.specs.Scratch.{Stored, LexesUtf8};

use answers::Refusal;
use first_token::Found;
use words::Names;

// What stands at a byte of a text.
fn token_at(text: &[u8], at: usize, names: &Names) -> Found
    requires { at < length text.now }
    ensures { (result ≡ first (drop at text.now)) × Fitting (length text.now - at) result }
{
    first_token::first_token(&text[at..], names)
}

// The tokens of a text, one after another.
fn lex_all(text: &[u8], names: &Names, words: &mut [u64]) -> Result<usize, Refusal>
    requires { (length text.now ≤ 65536) × (length text.now ≤ length words.old) }
    ensures { Stored text.now words.new result }
{
    let mut at = 0;
    let mut n = 0;
    // a token takes many bytes, so this is no `for`
    while at < text.len() {
        match token_at(text, at, names) {
            Found::Blank => {
                at += 1;
            }
            Found::Token(kind, len) => {
                let end = at + len;
                words[n] = tokens::word_of(kind, at, end);
                n += 1;
                at = end;
            }
            Found::LoneQuote => return Err(Refusal::LoneQuote(at)),
            Found::CutCharacter => return Err(Refusal::CutCharacter(at)),
        }
    }
    Ok(n)
}

// All tokens into a table that has a place for each byte; of that table after a refusal nothing is said.
pub fn lex_into(text: &[u8], words: &mut [u64]) -> Result<usize, Refusal>
    requires { (length text.now ≤ 65536) × (length text.now ≤ length words.old) }
    ensures { Stored text.now words.new result }
{
    let names = Names {
        letters: &words::LETTERS,
        starts: &words::STARTS,
        firsts: &words::FIRSTS,
    };
    lex_all(text, &names, words)
}

// Lexes into scratch that has a place for each byte, and hands over what is accepted and fits.
fn hand_over(text: &[u8], scratch: &mut [u64], table: &mut [u64]) -> Result<usize, Refusal>
    requires { (length text.now ≤ 65536) × (length text.now ≤ length scratch.old) }
    ensures { LexesUtf8 text.now table.old table.new result }
{
    let n = lex_into(text, scratch)?;
    if table.len() < n {
        return Err(Refusal::TokenTableShort(n));
    }
    tables::copy_front(scratch, n, table);
    Ok(n)
}

// A small text does not pay for the scratch of a large one: not inlined, each size has a frame of its own.
#[inline(never)]
fn lex_within<const N: usize>(text: &[u8], table: &mut [u64]) -> Result<usize, Refusal>
    requires { (length text.now ≤ N) × (N ≤ 65536) }
    ensures { LexesUtf8 text.now table.old table.new result }
{
    let mut scratch = [0u64; N];
    hand_over(text, &mut scratch, table)
}

// All tokens of a text, in the lent table, or refusals 1 to 5.
pub fn lex(text: &[u8], table: &mut [u64]) -> Result<usize, Refusal>
    ensures { Lexes text.now table.old table.new result }
{
    if 65536 < text.len() {
        return Err(Refusal::TooLong);
    }
    let valid = utf8::valid_up_to(text);
    if valid < text.len() {
        return Err(Refusal::NotUtf8(valid));
    }
    if text.len() <= 1024 {
        return lex_within::<1024>(text, table);
    }
    if text.len() <= 8192 {
        return lex_within::<8192>(text, table);
    }
    lex_within::<65536>(text, table)
}
