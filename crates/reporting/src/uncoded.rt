// What of an action cannot be exported, and where the action stands in the text.
use printing::Printer;
use shapes::Shape;
use tokens::TokenKind;

// The token that names action k of a text that is read: such a word stands nowhere else in it.
pub fn name_token(tokens: &[u64], k: usize) -> usize {
    let mut left = k;
    for (i, word) in tokens.iter().enumerate() {
        if let TokenKind::ActionName(_) = tokens::token_of(*word).kind {
            if left == 0 {
                return i;
            }
            left -= 1;
        }
    }
    tokens.len()
}

// The token of a jump's label stands behind its name.
pub fn label_token(tokens: &[u64], k: usize) -> usize {
    name_token(tokens, k).saturating_add(1).min(tokens.len())
}

fn shape_at(tokens: &[u64], index: usize) -> Shape {
    match entries::token_in(tokens, index).kind {
        TokenKind::ActionName(name) => shapes::shape_of(name),
        _ => Shape::Nothing,
    }
}

// Says what of action k cannot be coded, as far as its shape tells.
pub fn print_uncodable(to: Printer, tokens: &[u64], k: usize) {
    to.text(b"cannot be coded: ");
    let words = match shape_at(tokens, name_token(tokens, k)) {
        Shape::Values => {
            "a number kept as typed (Long), a zero byte in a string, or over 65,535 bytes"
        }
        Shape::Identifier => "the label is over 32,767 bytes away",
        Shape::BoolBoolU8 => "the method is above 3",
        Shape::Block => "the block is over 65,535 bytes",
        Shape::Function | Shape::Function2 | Shape::Try => {
            "a zero byte in a string, or a block over 65,535 bytes"
        }
        // of the others only a string can be at fault
        _ => "a zero byte in a string",
    };
    to.text(words.as_bytes());
}
