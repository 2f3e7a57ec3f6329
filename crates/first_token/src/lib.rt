// What a text starts with: a blank, a token, or a string of refusal 3 or 4. From lexer.rs.
#![tactic(auto)]

ghost use Rattle.std.specs.Prelude.{◌≡◌, ◌<◌, length};
ghost use Rattle.first_token.specs.First.{return_at, word_at, number_at, string_at, first};

use tokens::TokenKind;
use words::Names;

// What stands at the start of a text: a blank, a token and its length, or a string of row 3 or 4.
#[derive(Clone, Copy)]
pub enum Found {
    Blank,
    Token(TokenKind, usize),
    LoneQuote,
    CutCharacter,
}

#[tactic(auto, unfolding(crate::specs::First::return_at))]
fn return_at(s: &[u8]) -> Found
    ensures { result ≡ return_at s.now }
{
    if scanner::byte_at(s, 1) == b'\n' {
        return Found::Token(TokenKind::Newline, 2);
    }
    Found::Token(TokenKind::Newline, 1)
}

#[tactic(auto, unfolding(crate::specs::First::word_at))]
fn word_at(s: &[u8], names: &Names) -> Found
    requires { 0 < length s.now }
    ensures { result ≡ word_at s.now }
{
    let e = scanner::word_end(s, 1);
    Found::Token(keywords::word_kind(&s[..e], names), e)
}

#[tactic(auto, unfolding(crate::specs::First::number_at))]
fn number_at(s: &[u8]) -> Found
    requires { 0 < length s.now }
    ensures { result ≡ number_at s.now }
{
    let i = scanner::digits_end(s, 1);
    let e = scanner::exponent_end(s, scanner::point_end(s, i));
    if scanner::byte_at(s, i) == b'.' {
        return Found::Token(TokenKind::Float, e);
    }
    Found::Token(TokenKind::Integer, e)
}

#[tactic(auto, unfolding(crate::specs::First::string_at))]
fn string_at(s: &[u8]) -> Found
    requires { 0 < length s.now }
    ensures { result ≡ string_at s.now }
{
    let e = scanner::string_stop(s, 1);
    if scanner::byte_at(s, e) == b'"' {
        return Found::Token(TokenKind::String(true), e + 1);
    }
    if e == 1 {
        return Found::LoneQuote;
    }
    if scanner::byte_at(s, e - 1) < 128 {
        return Found::Token(TokenKind::String(false), e);
    }
    Found::CutCharacter
}

// What a text that is not empty starts with: the first byte alone decides.
#[tactic(auto, unfolding(crate::specs::First::first_of))]
pub fn first_token(s: &[u8], names: &Names) -> Found
    requires { 0 < length s.now }
    ensures { result ≡ first s.now }
{
    match s[0] {
        b' ' | b'\t' => Found::Blank,
        b',' => Found::Token(TokenKind::Comma, 1),
        b'{' => Found::Token(TokenKind::OpenBrace, 1),
        b'}' => Found::Token(TokenKind::CloseBrace, 1),
        b':' => Found::Token(TokenKind::Colon, 1),
        b'\n' => Found::Token(TokenKind::Newline, 1),
        b'\r' => return_at(s),
        b'a'..=b'z' | b'A'..=b'Z' | b'_' | b'$' => word_at(s, names),
        b'0'..=b'9' | b'-' => number_at(s),
        b'"' => string_at(s),
        _ => Found::Token(TokenKind::Unknown, s.len()),
    }
}
