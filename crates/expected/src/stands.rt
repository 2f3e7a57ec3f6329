// What stands at the place of a refusal 6, as far as a sentence tells it apart.
use crate::Lexed;
use tokens::{Token, TokenKind};
use views::is_control;
use words::same_word;

#[derive(Clone, Copy)]
pub enum Stands {
    End,
    Newline,
    String,
    Number,
    // a number without a digit where it needs one
    Digitless,
    // a number whose exponent's digits run to the end of the text
    Exponent,
    Word,
    // `register256`, `constant65536` and beyond, which are words like any other
    Beyond,
    Action,
    // a word that has another meaning than an action's: `true`, `register1`, ..
    Keyword,
    Colon,
    Comma,
    OpenBrace,
    CloseBrace,
    Catch,
    Finally,
    // an Unknown token, by its first character
    Comment,
    Semicolon,
    Space,
    Quote,
    ByteOrderMark,
    Control,
    Unknown,
}

fn unknown_at(text: &[u8], at: usize) -> Stands {
    match text.get(at..).unwrap_or(&[]) {
        // elsewhere it is a character like any other
        [239, 187, 191, ..] if at == 0 => Stands::ByteOrderMark,
        _ if is_control(text, at) => Stands::Control,
        [b';', ..] => Stands::Semicolon,
        // as comments start in other languages
        [b'#', ..] | [b'/', b'/' | b'*', ..] => Stands::Comment,
        // a no-break space looks like a space and is none
        [194, 160, ..] => Stands::Space,
        // quotes of another kind, as a word processor makes them
        [b'\'', ..] | [226, 128, 152 | 153 | 156 | 157, ..] => Stands::Quote,
        _ => Stands::Unknown,
    }
}

// Whether only digits follow, up to the end of the text.
fn runs_to_the_end(text: &[u8], at: usize) -> bool {
    at < text.len() && scanner::digits_end(text, at) == text.len()
}

fn number_at(text: &[u8], token: Token) -> Stands {
    if values::value(text, token).is_ok() {
        Stands::Number
    } else if runs_to_the_end(text, token.span.end) {
        Stands::Exponent
    } else {
        Stands::Digitless
    }
}

// Whether a word is `register` or `constant` with something behind it; both have eight letters.
fn is_numbered(word: &[u8]) -> bool {
    match word.split_at_checked(8) {
        None | Some((_, [])) => false,
        Some((front, _)) => same_word(front, b"register") || same_word(front, b"constant"),
    }
}

fn word_at(text: &[u8], token: Token) -> Stands {
    if is_numbered(tokens::raw_text(text, token)) {
        Stands::Beyond
    } else {
        Stands::Word
    }
}

pub fn stands_at(of: Lexed, index: usize) -> Stands {
    let Some(word) = of.tokens.get(index) else {
        return Stands::End;
    };
    let token = tokens::token_of(*word);
    match token.kind {
        TokenKind::Newline => Stands::Newline,
        TokenKind::String(_) => Stands::String,
        TokenKind::Float | TokenKind::Integer => number_at(of.text, token),
        TokenKind::Identifier => word_at(of.text, token),
        TokenKind::ActionName(_) => Stands::Action,
        TokenKind::Colon => Stands::Colon,
        TokenKind::Comma => Stands::Comma,
        TokenKind::OpenBrace => Stands::OpenBrace,
        TokenKind::CloseBrace => Stands::CloseBrace,
        TokenKind::Catch => Stands::Catch,
        TokenKind::Finally => Stands::Finally,
        TokenKind::Unknown => unknown_at(of.text, token.span.start),
        _ => Stands::Keyword,
    }
}
