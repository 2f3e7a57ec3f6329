// Fields of one, two and four bytes, the low byte first. Past the output's end nothing is stored.
ghost use Rattle.std.specs.Prelude.{◌≡◌, true, [], ◌∷◌, ◌<◌, set};
ghost use Rattle.action_records.specs.Fields.{UI8, UI16, UI32};
ghost use Rattle.field_coding.specs.Coding.{Puts, Codes, Room};

use crate::Coder;

fn store(out: &mut [u8], at: usize, b: u8)
    ensures { out.new ≡ set out.old at b }
{
    if at < out.len() {
        out[at] = b;
    }
}

impl<'a> Coder<'a> {
    // A byte, and what is known of its field by it.
    pub fn put_byte(&mut self, b: u8, ok: bool)
        requires { Room 1 self.old }
        ensures { Puts (b ∷ []) ok self.old self.new }
    {
        store(self.out, self.end, b);
        self.end += 1;
        self.holds = self.holds && ok;
    }

    pub fn put_8(&mut self, n: u64)
        requires { Room 1 self.old }
        ensures { Codes (UI8 n ∷ []) self.old self.new }
    {
        self.put_byte((n % 256) as u8, n < 256);
    }

    pub fn put_16(&mut self, n: u64)
        requires { Room 2 self.old }
        ensures { Codes (UI16 n ∷ []) self.old self.new }
    {
        let bytes = n.to_le_bytes();
        self.put_byte(bytes[0], n < 65536);
        self.put_byte(bytes[1], true);
    }

    pub fn put_32(&mut self, n: u64)
        requires { Room 4 self.old }
        ensures { Codes (UI32 n ∷ []) self.old self.new }
    {
        let bytes = n.to_le_bytes();
        self.put_byte(bytes[0], n < 4294967296);
        self.put_byte(bytes[1], true);
        self.put_byte(bytes[2], true);
        self.put_byte(bytes[3], true);
    }

    // A byte of bit fields, which has the number n where each holds its value.
    pub fn put_bits(&mut self, n: u64, ok: bool)
        requires room { Room 1 self.old }
        requires n_bound { ok ≡ true → n < 256 }
        ensures { Puts (n ∷ []) ok self.old self.new }
    {
        self.put_byte((n % 256) as u8, ok);
    }
}
