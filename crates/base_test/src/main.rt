// Runs the leaves at their limits, a line for each case.
#![tactic(auto)]

use answers::Refusal;
use names::ActionName;
use printing::{print_number, print_refusal, print_signed, print_span, print_text};
use tokens::{Span, Token, TokenKind};

// ---- numbers there and back

// How many numbers below a limit come back.
fn count_back<F: Fn(u64) -> bool>(limit: u64, comes_back: F) -> u64
    requires { F.IsAlwaysCallable comes_back }
{
    let mut good: u64 = 0;
    for n in 0..limit {
        good = good.wrapping_add(u64::from(comes_back(n)));
    }
    good
}

// ---- tokens: through the table word and back

#[derive(Clone, Copy)]
struct Written {
    kind: TokenKind,
    start: usize,
    end: usize,
}

const WRITTEN: [Written; 11] = [
    Written {
        kind: TokenKind::Newline,
        start: 0,
        end: 1,
    },
    Written {
        kind: TokenKind::String(true),
        start: 0,
        end: 2,
    },
    Written {
        kind: TokenKind::String(true),
        start: 65534,
        end: 65536,
    },
    Written {
        kind: TokenKind::String(true),
        start: 0,
        end: 0,
    },
    Written {
        kind: TokenKind::String(false),
        start: 0,
        end: 2,
    },
    Written {
        kind: TokenKind::String(false),
        start: 65534,
        end: 65536,
    },
    Written {
        kind: TokenKind::Unknown,
        start: 0,
        end: 65536,
    },
    Written {
        kind: TokenKind::Unknown,
        start: 65536,
        end: 65536,
    },
    Written {
        kind: TokenKind::Register(255),
        start: 7,
        end: 18,
    },
    Written {
        kind: TokenKind::Constant(65535),
        start: 7,
        end: 20,
    },
    Written {
        kind: TokenKind::ActionName(ActionName::With),
        start: 3,
        end: 7,
    },
];

// No From could ask for these bounds, as `tokens::word_of` does; each case keeps them.
fn word_of(w: Written) -> u64 {
    if 65536 < w.start || 65536 < w.end {
        return 0;
    }
    tokens::word_of(w.kind, w.start, w.end)
}

fn print_token(rt: HostRuntime, word: u64) {
    let t = tokens::token_of(word);
    print_text(rt, b"token ");
    print_number(rt, tokens::kind_number(t.kind));
    print_text(rt, b" ");
    print_span(rt, t.span);
    print_text(rt, b" ");
    print_span(rt, t.raw);
    print_text(rt, b"\n");
}

// ---- raw text

const LARGEST: usize = 18446744073709551615;

const BOUNDS: [Span; 13] = [
    Span { start: 0, end: 10 },
    Span { start: 0, end: 5 },
    Span { start: 7, end: 10 },
    Span { start: 9, end: 10 },
    Span { start: 10, end: 10 },
    Span { start: 3, end: 3 },
    Span { start: 4, end: 3 },
    Span { start: 0, end: 11 },
    Span { start: 10, end: 11 },
    Span { start: 11, end: 11 },
    Span {
        start: LARGEST,
        end: 0,
    },
    Span {
        start: 0,
        end: LARGEST,
    },
    Span {
        start: LARGEST,
        end: LARGEST,
    },
];

fn print_raw(rt: HostRuntime, bounds: Span) {
    let token = Token {
        kind: TokenKind::Identifier,
        span: bounds,
        raw: bounds,
    };
    print_text(rt, b"raw ");
    print_span(rt, bounds);
    print_text(rt, b" [");
    print_text(rt, tokens::raw_text(b"start: Add", token));
    print_text(rt, b"]");
    print_text(rt, b"\n");
}

// ---- deltas

// The bool is what `pcode::delta` is asked with: each value of `values` goes with either.
#[derive(Clone, Copy)]
struct Given {
    action: ActionName,
    values: usize,
    name_is_empty: bool,
}

const GIVEN: [Given; 14] = [
    Given {
        action: ActionName::Push,
        values: 0,
        name_is_empty: false,
    },
    Given {
        action: ActionName::Push,
        values: 65535,
        name_is_empty: false,
    },
    Given {
        action: ActionName::Push,
        values: 65536,
        name_is_empty: false,
    },
    Given {
        action: ActionName::Push,
        values: 65537,
        name_is_empty: false,
    },
    Given {
        action: ActionName::Push,
        values: LARGEST,
        name_is_empty: false,
    },
    Given {
        action: ActionName::GetTime,
        values: 65536,
        name_is_empty: false,
    },
    Given {
        action: ActionName::GetTime,
        values: 65537,
        name_is_empty: false,
    },
    Given {
        action: ActionName::Add,
        values: 0,
        name_is_empty: false,
    },
    Given {
        action: ActionName::StartDrag,
        values: 65536,
        name_is_empty: false,
    },
    Given {
        action: ActionName::StartDrag,
        values: 65537,
        name_is_empty: false,
    },
    Given {
        action: ActionName::DefineFunction,
        values: 0,
        name_is_empty: false,
    },
    Given {
        action: ActionName::DefineFunction,
        values: 0,
        name_is_empty: true,
    },
    Given {
        action: ActionName::DefineFunction2,
        values: 9,
        name_is_empty: false,
    },
    Given {
        action: ActionName::DefineFunction2,
        values: 9,
        name_is_empty: true,
    },
];

fn print_delta(rt: HostRuntime, g: Given) {
    print_text(rt, b"delta of action ");
    print_number(rt, actions::action_number(g.action) as u64);
    print_text(rt, b" with ");
    print_number(rt, g.values as u64);
    print_text(rt, b": ");
    match pcode::delta(g.action, g.values, g.name_is_empty) {
        Ok(d) => print_signed(rt, d),
        Err(r) => print_refusal(rt, r),
    }
    print_text(rt, b"\n");
}

// ---- refusals

const REFUSALS: [Refusal; 26] = [
    Refusal::TooLong,
    Refusal::NotUtf8(11),
    Refusal::LoneQuote(12),
    Refusal::CutCharacter(13),
    Refusal::TokenTableShort(14),
    Refusal::NotGrammatical(15),
    Refusal::NoValue,
    Refusal::TooDeep(16),
    Refusal::TableShort(3),
    Refusal::Undetermined,
    Refusal::NoLabel(110),
    Refusal::Uncodable(111),
    Refusal::OutputShort(112),
    Refusal::BadRecord(113),
    Refusal::BadTarget(114),
    Refusal::Unprintable(115),
    Refusal::TwoHeights,
    Refusal::BadEnd(117),
    Refusal::TooManyEnds,
    Refusal::NewerAction(119),
    Refusal::NewerValue(120),
    Refusal::NoPool(121),
    Refusal::PastPool(122),
    Refusal::BadPack,
    Refusal::NotInPack,
    Refusal::BadText(125),
];

// ---- all cases

fn print_cases(rt: HostRuntime) {
    for w in &WRITTEN {
        print_token(rt, word_of(*w));
    }
    print_token(rt, u64::MAX);
    for bounds in &BOUNDS {
        print_raw(rt, *bounds);
    }
    for g in &GIVEN {
        print_delta(rt, *g);
    }
    for r in &REFUSALS {
        print_refusal(rt, *r);
        print_text(rt, b"\n");
    }
}

fn main(rt: HostRuntime) {
    print_text(rt, b"actions there and back: ");
    let actions = count_back(65536, |n| {
        actions::action_number(actions::action_at(n as usize)) as u64 == n
    });
    print_number(rt, actions);
    print_text(rt, b"\nkinds there and back: ");
    let kinds = count_back(2097152, |n| tokens::kind_number(tokens::kind_of(n)) == n);
    print_number(rt, kinds);
    print_text(rt, b"\n");
    print_cases(rt);
}
