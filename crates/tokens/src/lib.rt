// Tokens: kinds, spans and raw texts, and the table word of each token. From lexer/tokens.rs and span.rs.
#![tactic(auto)]

ghost use Rattle.std.specs.Prelude.{◌≡◌, cond, ◌+◌, ◌<◌, ◌≤◌, length};
ghost use Rattle.tokens.specs.Kinds.{code_of, kind_number, kind_of, is_unclosed};
ghost use Rattle.tokens.specs.Tokens.{span, token_in, word_of, token_of, within, raw_bounds, raw_text};

use actions::{action_at, action_number};
use names::ActionName;

#[derive(Clone, Copy)]
pub enum TokenKind {
    Newline,
    // whether its closing quote was there
    String(bool),
    Float,
    Integer,
    Register(u8),
    Constant(u16),
    ActionName(ActionName),
    Identifier,
    Colon,
    Comma,
    OpenBrace,
    CloseBrace,
    True,
    False,
    Null,
    Undefined,
    Catch,
    Finally,
    Unknown,
}

// The bytes from `start` up to `end`.
#[derive(Clone, Copy)]
pub struct Span {
    pub start: usize,
    pub end: usize,
}

// A token's raw text is told by its bounds in the text; a string's leaves out its quotes.
#[derive(Clone, Copy)]
pub struct Token {
    pub kind: TokenKind,
    pub span: Span,
    pub raw: Span,
}

// The number of a kind: its place in `TokenKind`, and below 65,536 what it carries, for a string 1 where its closing quote is missing.
// No `From`: a token has two numbers, its kind's and its table word, and `u64::from` would not say which.
#[tactic(auto, using(actions::proofs::Numbers::number_below))]
pub fn kind_number(k: TokenKind) -> u64
    ensures { (result ≡ kind_number k) × (result < 2097152) }
{
    match k {
        TokenKind::Newline => 0,
        TokenKind::String(closed) => 65536 + u64::from(!closed),
        TokenKind::Float => 131072,
        TokenKind::Integer => 196608,
        TokenKind::Register(n) => 262144 + u64::from(n),
        TokenKind::Constant(n) => 327680 + u64::from(n),
        TokenKind::ActionName(a) => 393216 + action_number(a) as u64,
        TokenKind::Identifier => 458752,
        TokenKind::Colon => 524288,
        TokenKind::Comma => 589824,
        TokenKind::OpenBrace => 655360,
        TokenKind::CloseBrace => 720896,
        TokenKind::True => 786432,
        TokenKind::False => 851968,
        TokenKind::Null => 917504,
        TokenKind::Undefined => 983040,
        TokenKind::Catch => 1048576,
        TokenKind::Finally => 1114112,
        TokenKind::Unknown => 1179648,
    }
}

// The kind of a number. A number of 18 * 65,536 or more is an Unknown's; below that the part above 65,536 gives the kind, a register is
// taken modulo 256, an action number over 99 as 0.
#[tactic(auto, unfolding(crate::specs::Kinds::kind_of))]
pub fn kind_of(number: u64) -> TokenKind
    ensures { result ≡ kind_of number }
{
    let place = number / 65536;
    let carried = number % 65536;
    match place {
        0 => TokenKind::Newline,
        1 => TokenKind::String(carried != 1),
        2 => TokenKind::Float,
        3 => TokenKind::Integer,
        4 => TokenKind::Register((carried % 256) as u8),
        5 => TokenKind::Constant(carried as u16),
        6 => TokenKind::ActionName(action_at(carried as usize)),
        7 => TokenKind::Identifier,
        8 => TokenKind::Colon,
        9 => TokenKind::Comma,
        10 => TokenKind::OpenBrace,
        11 => TokenKind::CloseBrace,
        12 => TokenKind::True,
        13 => TokenKind::False,
        14 => TokenKind::Null,
        15 => TokenKind::Undefined,
        16 => TokenKind::Catch,
        17 => TokenKind::Finally,
        _ => TokenKind::Unknown,
    }
}

// The word that a table holds for a token.
pub fn word_of(kind: TokenKind, start: usize, end: usize) -> u64
    requires { (start ≤ 65536) × (end ≤ 65536) }
    ensures { result ≡ word_of (token_in kind (span start end)) }
{
    kind_number(kind) * 1099511627776 + (start as u64) * 1048576 + (end as u64)
}

// The place of a token's kind in `TokenKind`, which its word tells without the rest of it.
pub fn kind_place(word: u64) -> u64
    ensures { result ≡ (code_of (token_of word).kind).place }
{
    let place = word / 72057594037927936;
    if place < 18 { place } else { 18 }
}

// Whether a token is a string without its closing quote, which its word tells without the rest of it.
pub fn is_unclosed(word: u64) -> bool
    ensures { result ≡ is_unclosed (token_of word).kind }
{
    word / 1099511627776 == 65537
}

// The token of a table word.
pub fn token_of(word: u64) -> Token
    ensures { result ≡ token_of word }
{
    let number = word / 1099511627776;
    let start = (word / 1048576 % 1048576) as usize;
    let end = (word % 1048576) as usize;
    let inner = start + 1;
    let kind = kind_of(number);
    let span = Span { start, end };
    let raw = if number / 65536 == 1 {
        Span {
            start: inner,
            end: end.saturating_sub(1),
        }
    } else {
        span
    };
    Token { kind, span, raw }
}

// The bounds where they are in order and within `len` bytes, else the empty part at byte 0.
#[tactic(auto, unfolding(crate::specs::Tokens::within))]
pub fn bounds_within(len: usize, bounds: Span) -> Span
    ensures { result ≡ within len bounds }
{
    if bounds.end < bounds.start || len < bounds.end {
        return Span { start: 0, end: 0 };
    }
    bounds
}

// The raw text of a token, as that part of the caller's text: those bytes, from that byte of the text on. It refuses nothing.
pub fn raw_text(text: &[u8], token: Token) -> &[u8]
    ensures result_value { result.now ≡ raw_text text.now token }
    ensures ref_ptr_value { result.ref_ptr ≡ (text.entry.ref_ptr.0, (raw_bounds (length text.now) token).start + text.entry.ref_ptr.1) }
{
    let raw = token.raw;
    let bounds = bounds_within(text.len(), raw);
    let start = bounds.start;
    let end = bounds.end;
    &text[start..end]
}
