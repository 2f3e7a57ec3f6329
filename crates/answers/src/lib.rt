// Refusals: document 01's table under 'The call', a case for each row, and document 02's answers 10 to 25.
#![tactic(auto)]

ghost use Rattle.std.specs.Prelude.{◌≡◌};
ghost use Rattle.answers.specs.Answers.{number_of, place_of};

// A case holds the place where the row's place is not fixed.
#[derive(Clone, Copy)]
pub enum Refusal {
    // 1: a text over 65,536 bytes, or a list that long given to `delta`
    TooLong,
    // 2: the count of leading valid bytes
    NotUtf8(usize),
    // 3: the byte of a quote directly before a line feed or the end
    LoneQuote(usize),
    // 4: the byte of the quote of an unclosed string whose last character is over one byte
    CutCharacter(usize),
    // 5: the token count
    TokenTableShort(usize),
    // 6: the first token that no grammatical list could have there, or the token count
    NotGrammatical(usize),
    // 6 as the value call gives it: the token has no value
    NoValue,
    // 7: the index of the brace
    TooDeep(usize),
    // 8: 0 actions, 1 operands, 2 levels, 3 labels
    TableShort(usize),
    // 9: one of the seven undetermined actions
    Undetermined,
    // 10: the action of a jump whose label is not in its level
    NoLabel(usize),
    // 11: the action with an operand that cannot be coded
    Uncodable(usize),
    // 12: the length needed
    OutputShort(usize),
    // 13: the first byte of a record that is none, or 0 for over 1,048,576 bytes
    BadRecord(usize),
    // 14: the first byte of a jump to no action of its level, nor to the level's end
    BadTarget(usize),
    // 15: the first byte of a record with a string that is not UTF-8, or a double that is not printed
    Unprintable(usize),
    // 16: two paths reach one position at different heights; it stands in a net and names no action
    TwoHeights,
    // 17: the number of an end that is below the one before it, or past the bytes
    BadEnd(usize),
    // 18: over 32 ends
    TooManyEnds,
    // 19: the action that SWF 4 does not have
    NewerAction(usize),
    // 20: the action that pushes a value SWF 4 does not have
    NewerValue(usize),
    // 21: the action with a constant and no ConstantPool before it in its level
    NoPool(usize),
    // 22: the action with a constant past the end of its pool
    PastPool(usize),
    // 23: a pack's count, trailer, directory, name or order, or the ends of its texts
    BadPack,
    // 24: a name that is not there
    NotInPack,
    // 25: the number of a text that is refused, in the directory
    BadText(usize),
}

pub fn refusal_number(r: Refusal) -> u64
    ensures { result ≡ number_of r }
{
    match r {
        Refusal::TooLong => 1,
        Refusal::NotUtf8(_) => 2,
        Refusal::LoneQuote(_) => 3,
        Refusal::CutCharacter(_) => 4,
        Refusal::TokenTableShort(_) => 5,
        Refusal::NotGrammatical(_) => 6,
        Refusal::NoValue => 6,
        Refusal::TooDeep(_) => 7,
        Refusal::TableShort(_) => 8,
        Refusal::Undetermined => 9,
        Refusal::NoLabel(_) => 10,
        Refusal::Uncodable(_) => 11,
        Refusal::OutputShort(_) => 12,
        Refusal::BadRecord(_) => 13,
        Refusal::BadTarget(_) => 14,
        Refusal::Unprintable(_) => 15,
        Refusal::TwoHeights => 16,
        Refusal::BadEnd(_) => 17,
        Refusal::TooManyEnds => 18,
        Refusal::NewerAction(_) => 19,
        Refusal::NewerValue(_) => 20,
        Refusal::NoPool(_) => 21,
        Refusal::PastPool(_) => 22,
        Refusal::BadPack => 23,
        Refusal::NotInPack => 24,
        Refusal::BadText(_) => 25,
    }
}

pub fn refusal_place(r: Refusal) -> usize
    ensures { result ≡ place_of r }
{
    match r {
        Refusal::TooLong => 0,
        Refusal::NotUtf8(p) => p,
        Refusal::LoneQuote(p) => p,
        Refusal::CutCharacter(p) => p,
        Refusal::TokenTableShort(p) => p,
        Refusal::NotGrammatical(p) => p,
        Refusal::NoValue => 0,
        Refusal::TooDeep(p) => p,
        Refusal::TableShort(p) => p,
        Refusal::Undetermined => 0,
        Refusal::NoLabel(p) => p,
        Refusal::Uncodable(p) => p,
        Refusal::OutputShort(p) => p,
        Refusal::BadRecord(p) => p,
        Refusal::BadTarget(p) => p,
        Refusal::Unprintable(p) => p,
        Refusal::TwoHeights => 0,
        Refusal::BadEnd(p) => p,
        Refusal::TooManyEnds => 0,
        Refusal::NewerAction(p) => p,
        Refusal::NewerValue(p) => p,
        Refusal::NoPool(p) => p,
        Refusal::PastPool(p) => p,
        Refusal::BadPack => 0,
        Refusal::NotInPack => 0,
        Refusal::BadText(p) => p,
    }
}
