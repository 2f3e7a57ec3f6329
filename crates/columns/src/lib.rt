// What is shown, put together in columns and printed a buffer at a time: a write for each word takes too long.
#![tactic(auto)]

ghost use Rattle.std.specs.Prelude.{◌≡◌, ◌-◌, ◌<◌, ◌≤◌, max};
ghost use Rattle.columns.specs.Digits.{hex_digit_ascii};

use itoa::Buffer;
use printing::print_text;

// No column lies further out; what runs on past it is counted no more.
const WIDEST: usize = 4096;

// A buffer of what is not printed yet: how many of its bytes are filled, and how many characters of the line.
#[derive(Drop)]
pub struct Columns {
    rt: HostRuntime,
    buffer: [u8; 4096],
    at: usize,
    column: usize,
    ghost in_buffer: { at ≤ 4096 },
}

// A later byte of a character takes no column.
fn column_after(column: usize, b: u8) -> usize {
    if b == b'\n' {
        return 0;
    }
    if places::is_tail(b) || WIDEST <= column {
        return column;
    }
    column + 1
}

// How many spaces part what ends at a place of the line from a column: two at least.
fn gap(at: usize, column: usize) -> usize
    ensures { result ≡ max 2 (column - at) }
{
    column.saturating_sub(at).max(2)
}

fn hex_digit(n: u8) -> u8
    requires { n < 16 }
    ensures { result ≡ hex_digit_ascii n }
{
    if n < 10 { 48 + n } else { 87 + n }
}

impl Columns {
    pub fn new(rt: HostRuntime) -> Columns {
        Columns {
            rt,
            buffer: [0; 4096],
            at: 0,
            column: 0,
        }
    }

    // A full buffer is printed, and filled anew.
    pub fn put_byte(&mut self, b: u8) {
        if self.at >= self.buffer.len() {
            print_text(self.rt, &self.buffer);
            self.at = 0;
        }
        self.buffer[self.at] = b;
        self.at += 1;
        self.column = column_after(self.column, b);
    }

    pub fn put_text(&mut self, text: &[u8]) {
        for b in text {
            self.put_byte(*b);
        }
    }

    // Spaces up to a column; what has run on past it is parted from what follows all the same.
    pub fn put_column(&mut self, column: usize) {
        for _ in 0..gap(self.column, column) {
            self.put_byte(b' ');
        }
    }

    pub fn put_number(&mut self, n: u64) {
        let mut digits = Buffer::new();
        self.put_text(digits.format(n).as_bytes());
    }

    // A double's bits, 16 hexadecimal digits.
    pub fn put_bits(&mut self, bits: u64) {
        for b in bits.to_be_bytes() {
            self.put_pair(b);
        }
    }

    // A byte as two hexadecimal digits.
    pub fn put_pair(&mut self, b: u8) {
        self.put_byte(hex_digit(b / 16));
        self.put_byte(hex_digit(b % 16));
    }

    // Each byte with a space before it.
    pub fn put_bytes(&mut self, bytes: &[u8]) {
        for b in bytes {
            self.put_byte(b' ');
            self.put_pair(*b);
        }
    }

    pub fn put_integer(&mut self, n: i64) {
        if n < 0 {
            self.put_byte(b'-');
        }
        self.put_number(n.unsigned_abs());
    }

    // A number with its sign; 0 has none.
    pub fn put_signed(&mut self, n: i64) {
        if 0 < n {
            self.put_byte(b'+');
        }
        self.put_integer(n);
    }

    // So many of a thing, `1 byte` and `2 bytes`.
    pub fn put_count(&mut self, n: usize, what: &[u8]) {
        self.put_number(n as u64);
        self.put_byte(b' ');
        self.put_text(what);
        if n != 1 {
            self.put_byte(b's');
        }
    }

    // Prints what is left in the buffer.
    pub fn finish(self) {
        print_text(self.rt, &self.buffer[..self.at]);
    }
}
