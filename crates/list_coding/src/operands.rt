// The operands of an action, by their places.
ghost use Rattle.classes.specs.Lexemes.{Sound};
ghost use Rattle.list_coding.specs.Tables.{Small};

use entries::{Action, operand_in, token_in};
use field_coding::Coder;
use operand_coding::{number_of, put_pushed, put_text};
use tokens::{Token, token_of};

// A text, its tokens and its table of operands, and the action that the operands are of.
#[derive(Clone, Copy)]
pub struct Operands<'a> {
    pub text: &'a [u8],
    pub tokens: &'a [u64],
    pub operands: &'a [u64],
    pub action: Action,
    pub ghost sound: { Sound text.now tokens.now },
    pub ghost small: { Small action },
}

impl<'a> Operands<'a> {
    ghost use Rattle.std.specs.Prelude.{◌≡◌, [], ◌∷◌, ◌<◌};
    ghost use Rattle.tokens.specs.Tokens.{token_of};
    ghost use Rattle.movies.specs.Movie.{◌!◌, number_in};
    ghost use Rattle.action_records.specs.Operands as R;
    ghost use Rattle.field_coding.specs.Coding.{Codes, Room, Adds};
    ghost use Rattle.list_coding.specs.Operands.{word_at, values};

    // The token of operand k; past the last one that means nothing.
    pub fn token_at(self, k: usize) -> Token
        ensures { result ≡ token_of (word_at self.entry.tokens.now self.entry.operands.now self.entry.action k) }
    {
        if k < self.action.count {
            return token_in(
                self.tokens,
                operand_in(self.operands, self.action.first + k).token,
            );
        }
        token_of(0)
    }

    pub fn number_at(self, k: usize) -> u64
        ensures value { result ≡ number_in (values self.entry ! k) }
        ensures upper_bound { result < 4294967296 }
    {
        number_of(self.text, self.token_at(k))
    }

    pub fn put_text_at(self, k: usize, w: &mut Coder)
        requires { Room 131074 w.old }
        ensures codes { Codes (R.text (values self.entry ! k) ∷ []) w.old w.new }
        ensures adds { Adds 131074 w.old w.new }
    {
        put_text(self.text, self.token_at(k), w);
    }

    pub fn put_pushed_at(self, k: usize, w: &mut Coder)
        requires { Room 131075 w.old }
        ensures codes { Codes (R.pushed_as (values self.entry ! k)) w.old w.new }
        ensures adds { Adds 131075 w.old w.new }
    {
        put_pushed(self.text, self.token_at(k), w);
    }
}
