// A string: its bytes with the escapes decoded, and a zero byte.
ghost use Rattle.std.specs.Prelude.{◌≡◌, [], ◌∷◌, true, ◌+◌, ◌*◌, ◌≤◌, length};
ghost use Rattle.movies.specs.Strings.{decoded};
ghost use Rattle.action_records.specs.Fields.{STRING};
ghost use Rattle.field_coding.specs.Coding.{Spells, Codes, Room, Adds};
ghost use Rattle.field_coding.specs.Escapes.{protects_next, told, adds};

use crate::Coder;

// Whether the byte behind b is behind a backslash that is no escape's second byte.
fn protects(protected: bool, b: u8) -> bool
    ensures { result ≡ protects_next protected b }
{
    !protected && b == b'\\'
}

// What a byte behind a backslash means; none where the backslash stays.
fn told(b: u8) -> Option<u8>
    ensures { result ≡ told b }
{
    match b {
        b'n' => Some(b'\n'),
        b'r' => Some(b'\r'),
        b't' => Some(b'\t'),
        b'\\' => Some(b'\\'),
        b'"' => Some(b'"'),
        b'\'' => Some(b'\''),
        _ => None,
    }
}

impl<'a> Coder<'a> {
    // A byte of a string.
    fn put_char(&mut self, b: u8)
        requires { Room 1 self.old }
        ensures { Spells (b ∷ []) self.old self.new }
    {
        self.put_byte(b, b != 0);
    }

    fn put_escaped(&mut self, b: u8)
        requires { Room 2 self.old }
        ensures { Spells (adds true b) self.old self.new }
    {
        match told(b) {
            Some(m) => self.put_char(m),
            None => {
                self.put_char(b'\\');
                self.put_char(b);
            }
        }
    }

    // What a byte of a raw text adds to the string.
    fn put_next(&mut self, protected: bool, b: u8)
        requires { Room 2 self.old }
        ensures { Spells (adds protected b) self.old self.new }
    {
        if protected {
            self.put_escaped(b);
            return;
        }
        if b == b'\\' {
            return;
        }
        self.put_char(b);
    }

    fn put_decoded(&mut self, w: &[u8])
        requires { Room (2 * length w.now + 1) self.old }
        ensures spells { Spells (decoded w.now) self.old self.new }
        ensures adds { Adds (2 * length w.now + 1) self.old self.new }
    {
        let mut protected = false;
        for &b in w {
            self.put_next(protected, b);
            protected = protects(protected, b);
        }
        if protected {
            self.put_char(b'\\');
        }
    }

    // The string of a raw text.
    pub fn put_string(&mut self, w: &[u8])
        requires w_len_bound { length w.now ≤ 65536 }
        requires room { Room 131074 self.old }
        ensures codes { Codes (STRING (decoded w.now) ∷ []) self.old self.new }
        ensures adds { Adds 131074 self.old self.new }
    {
        self.put_decoded(w);
        self.put_byte(0, true);
    }
}
