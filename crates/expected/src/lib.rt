// What was expected at the place of a refusal 6, in a sentence for the author of a patch.
#![tactic(auto)]

mod sentence;
mod stands;

ghost use Rattle.std.specs.Prelude.{◌≤◌};

use classes::count_at;
use names::ActionName;
use printing::Printer;
use sentence::{Sentence, behind_brace, print_sentence, sentence_of};
use shapes::Shape;
use stands::{Stands, stands_at};
use tokens::TokenKind;

// A text and its tokens, and no more.
#[derive(Clone, Copy)]
pub struct Lexed<'a> {
    pub text: &'a [u8],
    pub tokens: &'a [u64],
}

fn kind_at(tokens: &[u64], index: usize) -> TokenKind {
    entries::token_in(tokens, index).kind
}

// ---- the place in the text

// Whether a label, an action or a handler starts behind this token, or nothing but the end of the line can.
fn parts(kind: TokenKind) -> bool {
    matches!(
        kind,
        TokenKind::Newline | TokenKind::Colon | TokenKind::OpenBrace | TokenKind::CloseBrace
    )
}

// The token that the label, action or handler of a place starts with; the place itself where one could start.
fn start_before(tokens: &[u64], index: usize) -> usize
    ensures { result ≤ index }
{
    for i in (0..index).rev() {
        if parts(kind_at(tokens, i)) {
            return i + 1;
        }
    }
    0
}

// The brace that opens the block around a token, or that a closing brace closes.
fn opening(tokens: &[u64], index: usize) -> Option<usize> {
    let mut closed: usize = 0;
    for i in (0..index).rev() {
        match kind_at(tokens, i) {
            TokenKind::CloseBrace => closed += 1,
            TokenKind::OpenBrace if closed == 0 => return Some(i),
            TokenKind::OpenBrace => closed -= 1,
            _ => {}
        }
    }
    None
}

// Whether a block is open before a token.
fn is_open(tokens: &[u64], index: usize) -> bool {
    opening(tokens, index).is_some()
}

fn action_or_label(tokens: &[u64], index: usize) -> Sentence {
    if is_open(tokens, index) {
        Sentence::ActionLabelOrBrace
    } else {
        Sentence::ActionOrLabel
    }
}

// Whether a colon stands behind a token.
fn names_label(tokens: &[u64], index: usize) -> bool {
    index < tokens.len() && matches!(kind_at(tokens, index + 1), TokenKind::Colon)
}

// A keyword where a label or an action could start.
fn at_keyword(tokens: &[u64], index: usize, otherwise: Sentence) -> Sentence {
    if names_label(tokens, index) {
        Sentence::KeywordAsLabel
    } else {
        otherwise
    }
}

// Where a label or an action could start.
fn at_start(tokens: &[u64], index: usize, stands: Stands) -> Sentence {
    match stands {
        Stands::End => Sentence::InsideBlock,
        Stands::CloseBrace => Sentence::NotOpen,
        Stands::OpenBrace => Sentence::BraceAlone,
        Stands::Catch | Stands::Finally => at_keyword(tokens, index, Sentence::HandlerAlone),
        Stands::Keyword => at_keyword(tokens, index, action_or_label(tokens, index)),
        _ => action_or_label(tokens, index),
    }
}

fn is_behind_brace(tokens: &[u64], index: usize) -> bool {
    0 < index && matches!(kind_at(tokens, index - 1), TokenKind::CloseBrace)
}

// What the operands of an action say of those to come. A token is an operand or a comma, by turns.
fn given_at(of: Lexed, start: usize, shape: Shape) -> usize {
    if of.tokens.len() <= start {
        return 0;
    }
    match shape {
        Shape::Function | Shape::Function2 => count_at(of.text, of.tokens, start + 3) as usize,
        Shape::BoolBoolMaybeU16 => match kind_at(of.tokens, start + 1) {
            TokenKind::True => 1,
            _ => 0,
        },
        _ => 0,
    }
}

// Behind the name of an action, which is the token at `start`.
fn in_action(of: Lexed, start: usize, behind: usize, name: ActionName, stands: Stands) -> Sentence {
    let shape = shapes::shape_of(name);
    let given = given_at(of, start, shape);
    sentence_of(shape, behind / 2, behind % 2 == 1, given, stands)
}

// Whether the block that ends before a token is one that `catch` or `finally` may stand behind.
fn takes_handler(tokens: &[u64], index: usize, is_catch: bool) -> bool {
    if index == 0 {
        return false;
    }
    let block = opening(tokens, index - 1).unwrap_or(index - 1);
    match kind_at(tokens, start_before(tokens, block)) {
        TokenKind::ActionName(ActionName::Try) => true,
        TokenKind::Catch => !is_catch,
        _ => false,
    }
}

// A new line helps only where what stands there may begin one.
fn if_it_helps(tokens: &[u64], index: usize, s: Sentence) -> Sentence {
    match s {
        Sentence::LineBeforeBrace if !is_open(tokens, index) => Sentence::NotOpen,
        Sentence::LineBeforeCatch if !takes_handler(tokens, index, true) => {
            Sentence::HandlerAlone
        }
        Sentence::LineBeforeFinally if !takes_handler(tokens, index, false) => {
            Sentence::HandlerAlone
        }
        _ => s,
    }
}

// Whether a token starts where the word before it ends: a name with a character that names do not have.
fn cuts_name(of: Lexed, index: usize) -> bool {
    if index == 0 {
        return false;
    }
    let token = entries::token_in(of.tokens, index - 1);
    matches!(token.kind, TokenKind::Identifier) && token.span.end == start_of(of, index)
}

// What makes no name where it stands directly behind a word.
fn is_no_letter(stands: Stands) -> bool {
    matches!(
        stands,
        Stands::Unknown | Stands::Quote | Stands::Number | Stands::Digitless | Stands::Exponent
    )
}

fn sentence_behind(of: Lexed, index: usize, stands: Stands) -> Sentence {
    let start = start_before(of.tokens, index);
    if start == index {
        return at_start(of.tokens, index, stands);
    }
    match kind_at(of.tokens, start) {
        TokenKind::ActionName(name) => in_action(of, start, index - start, name, stands),
        TokenKind::Identifier => Sentence::NoSuchAction,
        // catch or finally
        _ => Sentence::Brace,
    }
}

fn sentence_at(of: Lexed, index: usize, stands: Stands) -> Sentence {
    if is_behind_brace(of.tokens, index) {
        behind_brace(stands)
    } else if is_no_letter(stands) && cuts_name(of, index) {
        Sentence::NameCut
    } else {
        sentence_behind(of, index, stands)
    }
}

// What can stand nowhere is told whatever was expected.
fn sentence_for(of: Lexed, index: usize, stands: Stands) -> Sentence {
    match stands {
        Stands::Comment => Sentence::Comment,
        Stands::Semicolon => Sentence::Semicolon,
        Stands::Space => Sentence::Space,
        Stands::ByteOrderMark => Sentence::ByteOrderMark,
        Stands::Control => Sentence::Control,
        _ => if_it_helps(of.tokens, index, sentence_at(of, index, stands)),
    }
}

// Says what was expected at the token of a refusal 6.
pub fn print_expected(to: Printer, of: Lexed, index: usize) {
    let stands = stands_at(of, index);
    print_sentence(to, sentence_for(of, index, stands), stands);
}

// The token to mark: of a word that was taken for a label, or an action's name that was written as one, that word.
pub fn marked_token(of: Lexed, index: usize) -> usize {
    match sentence_for(of, index, stands_at(of, index)) {
        Sentence::NoSuchAction | Sentence::ActionAsLabel => index.saturating_sub(1),
        _ => index,
    }
}

// The byte that a token starts at; past the last token that is the end of the text.
pub fn start_of(of: Lexed, index: usize) -> usize {
    match of.tokens.get(index) {
        Some(word) => tokens::token_of(*word).span.start,
        None => of.text.len(),
    }
}
