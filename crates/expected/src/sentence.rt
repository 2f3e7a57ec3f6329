// The sentences: what was expected in an action, by its shape, the number of the operand and what stands there. docs/FORMAT.md lists
// them.
use crate::stands::Stands;
use printing::Printer;
use shapes::Shape;
use wanted::{Wanted, wanted_at};

#[derive(Clone, Copy)]
pub enum Sentence {
    // in an action
    Operand(Wanted),
    OperandOrEnd(Wanted),
    CommaThen(Wanted),
    CommaOrEnd,
    Brace,
    BraceByCount,
    BraceNoMore,
    LineEnd,
    NoOperands,
    NoMoreOperands,
    NoBlock,
    LineBeforeBrace,
    LineBeforeCatch,
    LineBeforeFinally,
    OneToALine,
    ActionAsLabel,
    // where a label or an action may start
    NoSuchAction,
    KeywordAsLabel,
    ActionOrLabel,
    ActionLabelOrBrace,
    NotOpen,
    BraceAlone,
    HandlerAlone,
    InsideBlock,
    // anywhere
    NameCut,
    Comment,
    Semicolon,
    Space,
    ByteOrderMark,
    Control,
    Exponent,
    Digitless,
}

fn has_block(shape: Shape) -> bool {
    is_function(shape) || matches!(shape, Shape::Block | Shape::Try)
}

// Push and ConstantPool take any number of operands. Not one with `is_function`: they share `matches!` and no shape.
fn is_list(shape: Shape) -> bool {
    matches!(shape, Shape::Values | Shape::Strings)
}

fn is_function(shape: Shape) -> bool {
    matches!(shape, Shape::Function | Shape::Function2)
}

// Behind a closing brace, where only the end of the line can stand.
pub fn behind_brace(stands: Stands) -> Sentence {
    match stands {
        Stands::OpenBrace => Sentence::NoBlock,
        Stands::CloseBrace => Sentence::LineBeforeBrace,
        Stands::Catch => Sentence::LineBeforeCatch,
        Stands::Finally => Sentence::LineBeforeFinally,
        Stands::Action => Sentence::OneToALine,
        _ => Sentence::LineEnd,
    }
}

// Behind the operands of an action, where only the end of the line can stand.
fn at_line_end(stands: Stands) -> Sentence {
    match stands {
        Stands::Comma | Stands::Number | Stands::String => Sentence::NoMoreOperands,
        Stands::Word | Stands::Beyond | Stands::Keyword => Sentence::NoMoreOperands,
        Stands::Catch | Stands::Finally => Sentence::HandlerAlone,
        _ => behind_brace(stands),
    }
}

fn at_brace(shape: Shape, stands: Stands) -> Sentence {
    match stands {
        Stands::Comma if is_function(shape) => Sentence::BraceByCount,
        Stands::Comma => Sentence::BraceNoMore,
        _ => Sentence::Brace,
    }
}

// Behind all operands of an action.
fn at_end(shape: Shape, stands: Stands) -> Sentence {
    if has_block(shape) {
        at_brace(shape, stands)
    } else {
        at_line_end(stands)
    }
}

// Behind an operand of a list, or where its first could stand.
fn in_list(otherwise: Sentence, stands: Stands) -> Sentence {
    match stands {
        Stands::CloseBrace => Sentence::LineBeforeBrace,
        _ => otherwise,
    }
}

// An action without operands has no comma to tell of.
fn without_operands(shape: Shape, stands: Stands) -> Sentence {
    match at_end(shape, stands) {
        Sentence::LineEnd | Sentence::NoMoreOperands => Sentence::NoOperands,
        other => other,
    }
}

// Where a value is due, a number that is none is told by itself.
fn at_value(w: Wanted, otherwise: Sentence, stands: Stands) -> Sentence {
    match (w, stands) {
        (Wanted::Value, Stands::Exponent) => Sentence::Exponent,
        (Wanted::Value, Stands::Digitless) => Sentence::Digitless,
        _ => otherwise,
    }
}

// Directly behind the name of an action.
fn behind_name(shape: Shape, given: usize, stands: Stands) -> Sentence {
    if let Stands::Colon = stands {
        return Sentence::ActionAsLabel;
    }
    match wanted_at(shape, 0, given) {
        Wanted::Nothing => without_operands(shape, stands),
        w if is_list(shape) => in_list(at_value(w, Sentence::OperandOrEnd(w), stands), stands),
        w => Sentence::Operand(w),
    }
}

// Where the operand of that number is due.
fn at_operand(shape: Shape, number: usize, given: usize, stands: Stands) -> Sentence {
    if number == 0 {
        return behind_name(shape, given, stands);
    }
    let w = wanted_at(shape, number, given);
    at_value(w, Sentence::Operand(w), stands)
}

// Where the operand of that number would come next, behind a comma.
fn at_comma(shape: Shape, number: usize, given: usize, stands: Stands) -> Sentence {
    if is_list(shape) {
        return in_list(Sentence::CommaOrEnd, stands);
    }
    match wanted_at(shape, number, given) {
        Wanted::Nothing => at_end(shape, stands),
        w => Sentence::CommaThen(w),
    }
}

// What was expected in an action: `number` is that of the operand which is due there, or whose comma is; `given` is what the operands
// before it say of those to come.
pub fn sentence_of(
    shape: Shape,
    number: usize,
    is_due: bool,
    given: usize,
    stands: Stands,
) -> Sentence {
    if is_due {
        at_operand(shape, number, given, stands)
    } else {
        at_comma(shape, number, given, stands)
    }
}

// ---- the words

fn words_of(w: Wanted) -> &'static str {
    match w {
        Wanted::Nothing => "nothing",
        Wanted::String => "a string",
        Wanted::Value => "a value",
        Wanted::Bool => "true or false",
        Wanted::Flag => "true or false (nine of them)",
        Wanted::U8 => "a whole number from 0 to 255",
        Wanted::U16 => "a whole number from 0 to 65,535",
        Wanted::Count => "a count (a whole number up to 2,147,483,647)",
        Wanted::Parameter => "a string (as many as the count says)",
        Wanted::Register =>
            "a whole number from 0 to 255 (with a string, as often as the count says)",
        Wanted::Label => "a label's name",
        Wanted::Target => "a string, a register or `{`",
    }
}

// The end of the line or of the text is told first: it is not seen under the mark.
fn print_early(to: Printer, stands: Stands) {
    match stands {
        Stands::Newline => to.text(b"the line ends too early: "),
        Stands::End => to.text(b"the text ends too early: "),
        _ => {}
    }
}

fn print_name_hint(to: Printer, stands: Stands) {
    match stands {
        Stands::String => to.text(b": it has no quotes"),
        Stands::Action => to.text(b": an action's name cannot be a label"),
        Stands::Keyword | Stands::Catch | Stands::Finally => to.text(
            b": this word has another meaning",
        ),
        _ => {}
    }
}

fn print_quote_hint(to: Printer, stands: Stands) {
    match stands {
        Stands::Word | Stands::Action | Stands::Quote => to.text(b" (a string has double quotes)"),
        Stands::Beyond => to.text(b" (registers go up to 255, constants to 65,535)"),
        _ => {}
    }
}

fn print_target_hint(to: Printer, stands: Stands) {
    match stands {
        Stands::Newline => to.text(b" on the same line"),
        _ => print_quote_hint(to, stands),
    }
}

fn print_hint(to: Printer, w: Wanted, stands: Stands) {
    match w {
        Wanted::Label => print_name_hint(to, stands),
        Wanted::String | Wanted::Value | Wanted::Parameter => print_quote_hint(to, stands),
        Wanted::Target => print_target_hint(to, stands),
        _ => {}
    }
}

fn print_operand(to: Printer, w: Wanted, stands: Stands) {
    print_early(to, stands);
    to.text(words_of(w).as_bytes());
    to.text(b" was expected");
    print_hint(to, w, stands);
}

fn print_operand_or_end(to: Printer, w: Wanted, stands: Stands) {
    to.text(words_of(w).as_bytes());
    to.text(b" or the end of the line was expected");
    print_hint(to, w, stands);
}

fn print_comma_then(to: Printer, w: Wanted, stands: Stands) {
    print_early(to, stands);
    to.text(b"a comma was expected, then ");
    to.text(words_of(w).as_bytes());
}

fn print_brace(to: Printer, stands: Stands) {
    print_early(to, stands);
    match stands {
        Stands::Newline => to.text(b"`{` was expected on the same line"),
        _ => to.text(b"`{` was expected"),
    }
}

// Where a label or an action may start, or anywhere.
fn words_elsewhere(s: Sentence) -> &'static str {
    match s {
        Sentence::NoSuchAction => "no such action, or a label without its colon",
        Sentence::KeywordAsLabel => "this word has another meaning and cannot be a label",
        Sentence::ActionOrLabel => "an action or a label was expected",
        Sentence::ActionLabelOrBrace => "an action, a label or `}` was expected",
        Sentence::NotOpen => "no block is open here that `}` could close",
        Sentence::BraceAlone => "`{` stands on the line of its action, behind the operands",
        Sentence::HandlerAlone =>
            "catch and finally stand behind a Try's block, each once and in this order",
        Sentence::InsideBlock => "the text ends inside a block: `}` was expected",
        Sentence::NameCut => "a name has the letters a to z, digits, _ and $, and nothing else",
        Sentence::Comment => "there are no comments in a patch",
        Sentence::Semicolon =>
            "the end of the line ends an action, and there are no comments in a patch",
        Sentence::Space => "this is no plain space: type it again",
        Sentence::ByteOrderMark => "a byte order mark cannot stand here: save the file without one",
        Sentence::Control => "a control character cannot stand here",
        Sentence::Exponent =>
            "end the line: an exponent's digits are not taken where they run to the end of the text",
        Sentence::Digitless => "a digit is missing in this number",
        // the two functions below have the others
        _ => "",
    }
}

// The sentences of an action that are the same whatever stands there.
fn words_in_action(s: Sentence) -> &'static str {
    match s {
        Sentence::CommaOrEnd => "a comma or the end of the line was expected",
        Sentence::BraceByCount => "`{` was expected: the count says how many parameters there are",
        Sentence::BraceNoMore => "`{` was expected: this action takes no more operands",
        Sentence::LineEnd => "the end of the line was expected",
        Sentence::NoOperands => "the end of the line was expected: this action takes no operands",
        Sentence::NoMoreOperands =>
            "the end of the line was expected: this action takes no more operands",
        Sentence::NoBlock => "the end of the line was expected: no block can stand here",
        Sentence::LineBeforeBrace => "a new line was expected before `}`",
        Sentence::LineBeforeCatch => "a new line was expected before catch",
        Sentence::LineBeforeFinally => "a new line was expected before finally",
        Sentence::OneToALine => "the end of the line was expected: each action has its own line",
        Sentence::ActionAsLabel => "an action's name cannot be a label",
        _ => words_elsewhere(s),
    }
}

pub fn print_sentence(to: Printer, s: Sentence, stands: Stands) {
    match s {
        Sentence::Operand(w) => print_operand(to, w, stands),
        Sentence::OperandOrEnd(w) => print_operand_or_end(to, w, stands),
        Sentence::CommaThen(w) => print_comma_then(to, w, stands),
        Sentence::Brace => print_brace(to, stands),
        _ => to.text(words_in_action(s).as_bytes()),
    }
}
