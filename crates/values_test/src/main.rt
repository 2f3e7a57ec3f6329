// Values at their limits. First the texts on standard input, a line for each token with its value, and of an Integer token
// its u8, u16 and i32; then tokens that no text yields, and texts of 65,536 and 65,537 bytes.
#![tactic(auto)]

use answers::Refusal;
use printing::{print_bits, print_number, print_refusal, print_signed, print_span, print_text};
use std::io;
use tokens::{Span, Token, TokenKind};
use values::PushValue;

fn print_case(rt: HostRuntime, v: PushValue) {
    match v {
        PushValue::Null => print_text(rt, b"null"),
        PushValue::Undefined => print_text(rt, b"undefined"),
        PushValue::String(_) => print_text(rt, b"string "),
        PushValue::Integer(_) => print_text(rt, b"integer "),
        PushValue::Float(_) => print_text(rt, b"double "),
        PushValue::True => print_text(rt, b"true"),
        PushValue::False => print_text(rt, b"false"),
        PushValue::Register(_) => print_text(rt, b"register "),
        PushValue::Constant(_) => print_text(rt, b"constant "),
        PushValue::Long(_) => print_text(rt, b"long "),
    }
}

fn print_held(rt: HostRuntime, v: PushValue) {
    match v {
        PushValue::String(s) => print_span(rt, s),
        PushValue::Integer(n) => print_signed(rt, n),
        PushValue::Float(x) => print_bits(rt, values::bits_of(x)),
        PushValue::Register(n) => print_number(rt, n as u64),
        PushValue::Constant(n) => print_number(rt, n as u64),
        PushValue::Long(s) => print_span(rt, s),
        _ => {}
    }
}

fn print_value(rt: HostRuntime, answer: Result<PushValue, Refusal>) {
    match answer {
        Ok(v) => {
            print_case(rt, v);
            print_held(rt, v);
        }
        Err(r) => print_refusal(rt, r),
    }
}

// Not one generic with `print_integer`: it would take the function that prints as well, and be no shorter.
fn print_natural(rt: HostRuntime, n: Option<u64>) {
    match n {
        Some(k) => print_number(rt, k),
        None => print_text(rt, b"none"),
    }
}

fn print_integer(rt: HostRuntime, n: Option<i32>) {
    match n {
        Some(k) => print_signed(rt, k),
        None => print_text(rt, b"none"),
    }
}

fn print_widths(rt: HostRuntime, text: &[u8], token: Token) {
    print_text(rt, b", u8 ");
    print_natural(rt, values::u8_of(text, token));
    print_text(rt, b", u16 ");
    print_natural(rt, values::u16_of(text, token));
    print_text(rt, b", i32 ");
    print_integer(rt, values::i32_of(text, token));
}

fn print_token(rt: HostRuntime, text: &[u8], token: Token) {
    print_text(rt, tokens::raw_text(text, token));
    print_text(rt, b" is ");
    print_value(rt, values::value(text, token));
    if let TokenKind::Integer = token.kind {
        print_widths(rt, text, token);
    }
    print_text(rt, b"\n");
}

fn print_unless_newline(rt: HostRuntime, text: &[u8], word: u64) {
    let token = tokens::token_of(word);
    match token.kind {
        TokenKind::Newline => {}
        _ => print_token(rt, text, token),
    }
}

fn print_tokens(rt: HostRuntime, text: &[u8], table: &[u64], n: usize) {
    for word in table.iter().take(n) {
        print_unless_newline(rt, text, *word);
    }
}

fn print_all(rt: HostRuntime, text: &[u8]) {
    let mut table = [0u64; 4096];
    match lexer::lex(text, &mut table) {
        Ok(n) => print_tokens(rt, text, &table, n),
        Err(r) => print_refusal(rt, r),
    }
}

// ---- tokens that no text yields

#[derive(Clone, Copy)]
struct Odd {
    kind: TokenKind,
    start: usize,
    end: usize,
}

const ODD: [Odd; 14] = [
    Odd {
        kind: TokenKind::Integer,
        start: 0,
        end: 2,
    },
    Odd {
        kind: TokenKind::Float,
        start: 3,
        end: 5,
    },
    Odd {
        kind: TokenKind::Integer,
        start: 6,
        end: 9,
    },
    Odd {
        kind: TokenKind::Float,
        start: 10,
        end: 11,
    },
    Odd {
        kind: TokenKind::Float,
        start: 12,
        end: 15,
    },
    Odd {
        kind: TokenKind::Integer,
        start: 16,
        end: 19,
    },
    Odd {
        kind: TokenKind::Identifier,
        start: 16,
        end: 19,
    },
    Odd {
        kind: TokenKind::Identifier,
        start: 0,
        end: 19,
    },
    Odd {
        kind: TokenKind::True,
        start: 4,
        end: 3,
    },
    Odd {
        kind: TokenKind::Null,
        start: 19,
        end: 20,
    },
    Odd {
        kind: TokenKind::Register(255),
        start: 19,
        end: 19,
    },
    Odd {
        kind: TokenKind::String(true),
        start: 20,
        end: 20,
    },
    Odd {
        kind: TokenKind::Constant(65535),
        start: 18446744073709551615,
        end: 0,
    },
    Odd {
        kind: TokenKind::Unknown,
        start: 0,
        end: 1,
    },
];

fn print_odd(rt: HostRuntime, odd: Odd) {
    let raw = Span {
        start: odd.start,
        end: odd.end,
    };
    let token = Token {
        kind: odd.kind,
        span: raw,
        raw,
    };
    print_span(rt, raw);
    print_text(rt, b": ");
    print_token(rt, b"+5 .5 1.5 5 inf nan", token);
}

fn print_odds(rt: HostRuntime) {
    for odd in &ODD {
        print_odd(rt, *odd);
    }
}

// ---- the largest text, and one byte more

fn print_true_in(rt: HostRuntime, text: &[u8]) {
    let raw = Span { start: 0, end: 4 };
    let token = Token {
        kind: TokenKind::True,
        span: raw,
        raw,
    };
    print_number(rt, text.len() as u64);
    print_text(rt, b" bytes: ");
    print_value(rt, values::value(text, token));
    print_text(rt, b"\n");
}

fn main(rt: HostRuntime) -> io::Result<()> {
    let mut input = [0u8; 4096];
    let n = files::read_up_to(&mut rt.stdin(), &mut input)?;
    print_all(rt, &input[..n]);
    print_odds(rt);
    let text = [32u8; 65537];
    print_true_in(rt, &text[..65536]);
    print_true_in(rt, &text);
    Ok(())
}
