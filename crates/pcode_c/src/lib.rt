// The calls for C and Rust, as include/pcode.h documents them. Each calls a public function and tells C what that answered.
// A slice passes as a pointer and a length; an answer is a refusal's number, or 0, and what it carries goes to `out`.
#![tactic(auto)]

ghost use Rattle.std.specs.Prelude.{◌≡◌, length};
ghost use Rattle.actions.specs.Numbers.{action_at};
ghost use Rattle.handover.specs.Reading.{lent};
ghost use Rattle.tokens.specs.Tokens.{span, token_of, within};
ghost use Rattle.entries.specs.Entries.{action_of, operand_of, level_at, label_of};
ghost use Rattle.lexer.specs.Lexing.{counted, lex_text, table_after};
ghost use Rattle.pcode.specs.Deltas.{delta_answer};
ghost use Rattle.values.specs.Values.{value_answer};
ghost use Rattle.c_tokens.specs.Tokens.{returned, tokens_after, token_after, bounds_after, delta_after, token_with, integer_after, value_after};
ghost use Rattle.c_tokens.specs.Places.{name_of, word_after, place_after};
ghost use Rattle.c_entries.specs.Entries.{action_after, operand_after, level_after, height_after, label_after};
ghost use Rattle.pcode_c.specs.ReadFor.{ReadFor};
ghost use Rattle.pcode_c.specs.ExportFor.{ExportFor};

use as2_pcode::Tables;
use tokens::Span;

#[unsafe(no_mangle)]
pub extern "C" fn pcode_lex(text: &[u8], table: &mut [u64], out: &mut [u64; 1]) -> u64
    ensures value { result ≡ returned (counted (lex_text text.now (length table.old))) }
    ensures out_after { out.new ≡ tokens_after (counted (lex_text text.now (length table.old))) out.old }
    ensures table_after { table.new ≡ table_after (lex_text text.now (length table.old)) table.old }
{
    let answer = lexer::lex(text, table);
    c_tokens::tell_tokens(answer, out)
}

#[unsafe(no_mangle)]
pub extern "C" fn pcode_read(
    text: &[u8],
    tokens: &mut [u64],
    actions: &mut [u64],
    operands: &mut [u64],
    levels: &mut [u64],
    labels: &mut [u64],
    out: &mut [u64; 5],
) -> u64
    ensures { ReadFor text.now (lent tokens.old actions.old operands.old levels.old labels.old) (lent tokens.new actions.new operands.new levels.new labels.new) out.old out.new result }
{
    let mut tables = Tables {
        tokens,
        actions,
        operands,
        levels,
        labels,
    };
    let answer = as2_pcode::read(text, &mut tables);
    c_entries::tell_reading(answer, out)
}

#[unsafe(no_mangle)]
pub extern "C" fn pcode_export(
    text: &[u8],
    tokens: &mut [u64],
    actions: &mut [u64],
    operands: &mut [u64],
    levels: &mut [u64],
    labels: &mut [u64],
    as_printed: bool,
    out: &mut [u8],
    told: &mut [u64; 6],
) -> u64
    ensures { ExportFor as_printed text.now (lent tokens.old actions.old operands.old levels.old labels.old) (lent tokens.new actions.new operands.new levels.new labels.new) out.old out.new told.old told.new result }
{
    let style = c_export::style_with(as_printed);
    let mut lent = Tables {
        tokens,
        actions,
        operands,
        levels,
        labels,
    };
    let answer = export::export(text, &mut lent, style, out);
    c_export::tell_export(answer, told)
}

// ---- the entry of a table's word, a level's of its two

#[unsafe(no_mangle)]
pub extern "C" fn pcode_token(word: u64, out: &mut [u64; 5])
    ensures { out.new ≡ token_after (token_of word) out.old }
{
    c_tokens::tell_token(tokens::token_of(word), out)
}

#[unsafe(no_mangle)]
pub extern "C" fn pcode_action(word: u64, out: &mut [u64; 4])
    ensures { out.new ≡ action_after (action_of word) out.old }
{
    c_entries::tell_action(entries::action_of(word), out)
}

#[unsafe(no_mangle)]
pub extern "C" fn pcode_operand(word: u64, out: &mut [u64; 3])
    ensures { out.new ≡ operand_after (operand_of word) out.old }
{
    c_entries::tell_operand(entries::operand_of(word), out)
}

#[unsafe(no_mangle)]
pub extern "C" fn pcode_level(words: &[u64; 2], out: &mut [u64; 6], height: &mut [i64; 1])
    ensures out_after { out.new ≡ level_after (level_at words.now 0) out.old }
    ensures height_after { height.new ≡ height_after (level_at words.now 0) height.old }
{
    c_entries::tell_level(entries::level_of(words[0], words[1]), out, height)
}

#[unsafe(no_mangle)]
pub extern "C" fn pcode_label(word: u64, out: &mut [u64; 3])
    ensures { out.new ≡ label_after (label_of word) out.old }
{
    c_entries::tell_label(entries::label_of(word), out)
}

// ---- tokens and actions by themselves

#[unsafe(no_mangle)]
pub extern "C" fn pcode_raw_text(text: &[u8], start: usize, end: usize, out: &mut [u64; 2])
    ensures { out.new ≡ bounds_after (within (length text.now) (span start end)) out.old }
{
    c_tokens::tell_bounds(tokens::bounds_within(text.len(), Span { start, end }), out)
}

#[unsafe(no_mangle)]
pub extern "C" fn pcode_delta(
    action: usize,
    values: usize,
    name_is_empty: bool,
    out: &mut [i32; 1],
) -> u64
    ensures value { result ≡ returned (delta_answer (action_at action) values name_is_empty) }
    ensures out_after { out.new ≡ delta_after (delta_answer (action_at action) values name_is_empty) out.old }
{
    let answer = pcode::delta(actions::action_at(action), values, name_is_empty);
    c_tokens::tell_delta(answer, out)
}

#[unsafe(no_mangle)]
pub extern "C" fn pcode_action_name(action: usize, name: &mut [u8]) -> usize
    ensures value { result ≡ length (name_of action) }
    ensures name_after { name.new ≡ word_after (name_of action) name.old }
{
    c_tokens::tell_name(action, name)
}

#[unsafe(no_mangle)]
pub extern "C" fn pcode_value(
    text: &[u8],
    kind: u64,
    start: usize,
    end: usize,
    integer: &mut [i32; 1],
    out: &mut [u64; 4],
) -> u64
    ensures value { result ≡ returned (value_answer text.now (token_with kind start end)) }
    ensures integer_after { integer.new ≡ integer_after (value_answer text.now (token_with kind start end)) integer.old }
    ensures out_after { out.new ≡ value_after (value_answer text.now (token_with kind start end)) out.old }
{
    let answer = values::value(text, c_tokens::token_with(kind, start, end));
    c_tokens::tell_value(answer, integer, out)
}

// ---- places

#[unsafe(no_mangle)]
pub extern "C" fn pcode_line_column(text: &[u8], at: usize, out: &mut [u64; 2])
    ensures { out.new ≡ place_after text.now at out.old }
{
    c_tokens::tell_place(text, at, out)
}
