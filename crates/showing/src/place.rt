// Where the actions stand in the text. Every action name of a reading is that of an action, in the same order.
ghost use Rattle.std.specs.Prelude.{◌≡◌};
ghost use Rattle.places.specs.Places.{line_at};

use tokens::TokenKind;

// An action's name starts at a byte, in a line; the names before a token are passed.
#[derive(Clone, Copy)]
pub struct Place {
    pub token: usize,
    pub byte: usize,
    pub line: usize,
}

fn is_action_name(word: u64) -> bool {
    matches!(tokens::token_of(word).kind, TokenKind::ActionName(_))
}

// The place of the next action.
pub fn next_place(text: &[u8], tokens: &[u64], p: Place) -> Place
    requires { p.line ≡ line_at text.now p.byte }
    ensures { result.line ≡ line_at text.now result.byte }
{
    for i in p.token..tokens.len() {
        if is_action_name(tokens[i]) {
            let byte = tokens::token_of(tokens[i]).span.start;
            let line = lookups::line_from(text, p.byte, p.line, byte);
            return Place {
                token: i + 1,
                byte,
                line,
            };
        }
    }
    p
}
