// Recorded answers: lists of records, which the replaying programs read from files, and what a call told held to them.
// A record is numbers, one behind the other: how many bytes of it follow; the text's length, and the text; then what is
// expected, in the order in which the program asks for it. A number below 254 is a byte; 254 stands before two bytes, 255
// before eight, low byte first. A signed number is written as twice its size, less one if it is negative.
#![tactic(auto)]

ghost use Rattle.std.specs.Prelude.{◌<◌, ◌≤◌, IfOk, IfSome, length};

use printing::{print_number, print_text};
use std::fs::File;
use std::io;
use tokens::TokenKind;

// ---- numbers

// A number, and where the next one starts: a tuple would leave the clauses `.0` and `.1` for these.
#[derive(Clone, Copy)]
struct Taken {
    value: u64,
    next: usize,
}

// The number that a list starts with, and how many bytes it takes; none where the list ends before it does.
fn first_number(list: &[u8]) -> Option<Taken>
    ensures { IfSome result (λ t. (0 < t.next) × (t.next ≤ length list.now)) }
{
    match list {
        [255, a, b, c, d, e, f, g, h, ..] => Some(Taken {
            value: u64::from_le_bytes([*a, *b, *c, *d, *e, *f, *g, *h]),
            next: 9,
        }),
        [254, a, b, ..] => Some(Taken {
            value: u64::from(u16::from_le_bytes([*a, *b])),
            next: 3,
        }),
        [254 | 255, ..] | [] => None,
        [first, ..] => Some(Taken {
            value: u64::from(*first),
            next: 1,
        }),
    }
}

fn number_at(list: &[u8], at: usize) -> Option<Taken>
    ensures { IfSome result (λ t. (at < t.next) × (t.next ≤ length list.now)) }
{
    if list.len() <= at {
        return None;
    }
    let first = first_number(&list[at..])?;
    Some(Taken {
        value: first.value,
        next: at + first.next,
    })
}

// The signed number that is written as n; one that no reading has where n is too large.
fn signed(n: u64) -> i64 {
    let half = n / 2;
    if 4294967296 < half {
        return 8589934592;
    }
    if n % 2 == 0 {
        return half as i64;
    }
    -((half + 1) as i64)
}

// ---- what was told, held to the list

// Where in the list the next number stands, where the first stood that was not as expected, and how many numbers were passed over.
#[derive(Clone, Copy)]
pub struct Cursor<'a> {
    list: &'a [u8],
    pub at: usize,
    pub wrong: Option<usize>,
    pub passed: u64,
}

impl<'a> Cursor<'a> {
    pub fn new(list: &'a [u8], at: usize) -> Cursor<'a> {
        Cursor {
            list,
            at,
            wrong: None,
            passed: 0,
        }
    }

    // The next number, which is compared to nothing. Where the list ends before it does, nothing follows.
    pub fn take(&mut self) -> Option<u64> {
        match number_at(self.list, self.at) {
            Some(told) => {
                self.at = told.next;
                Some(told.value)
            }
            None => {
                self.at = self.list.len();
                None
            }
        }
    }

    // The first difference is kept.
    pub fn differ(&mut self, at: usize) {
        self.wrong = self.wrong.or(Some(at));
    }

    pub fn expect(&mut self, n: u64) {
        let from = self.at;
        if self.take() != Some(n) {
            self.differ(from);
        }
    }

    pub fn expect_signed(&mut self, n: i64) {
        let from = self.at;
        match self.take() {
            Some(told) if signed(told) == n => {}
            _ => self.differ(from),
        }
    }

    // How many bytes, and each of them.
    pub fn expect_bytes(&mut self, bytes: &[u8]) {
        self.expect(bytes.len() as u64);
        for b in bytes {
            self.expect(u64::from(*b));
        }
    }

    // The next number is not compared.
    pub fn pass(&mut self) {
        let from = self.at;
        match self.take() {
            Some(_) => self.passed = self.passed.wrapping_add(1),
            None => self.differ(from),
        }
    }

    // A record that says more, or less, than was looked at is a difference.
    pub fn end(&mut self, next: usize) {
        if self.at != next {
            self.differ(self.at);
        }
    }
}

// The number of a kind as the Rust has it, which does not say whether a string was closed: 'demand 2's equality leaves it
// and the count out' (document 02, §1).
pub fn rust_kind(kind: TokenKind) -> u64 {
    match kind {
        TokenKind::String(_) => 65536,
        _ => tokens::kind_number(kind),
    }
}

// ---- records

// The text is the bytes from `start` up to `stop`; what is expected stands from there up to `next`.
#[derive(Clone, Copy)]
pub struct Record {
    pub start: usize,
    pub stop: usize,
    pub next: usize,
}

// One that fits the list.
fn fitting(list: &[u8], at: usize) -> Option<Record>
    ensures { IfSome result (λ r. (at < r.next) × ((r.start ≤ r.stop) × ((r.stop ≤ r.next) × (r.next ≤ length list.now)))) }
{
    let size = number_at(list, at)?;
    let body = size.next;
    if list.len() - body < size.value as usize {
        return None;
    }
    let next = body + size.value as usize;
    let len = number_at(list, body)?;
    let start = len.next;
    if next < start || next - start < len.value as usize {
        return None;
    }
    Some(Record {
        start,
        stop: start + len.value as usize,
        next,
    })
}

// One that does not fit the list is empty and the last: it has no answer, which is a difference.
pub fn record_at(list: &[u8], at: usize) -> Record
    requires { at < length list.now }
    ensures { (at < result.next) × ((result.start ≤ result.stop) × ((result.stop ≤ result.next) × (result.next ≤ length list.now))) }
{
    let all = list.len();
    fitting(list, at).unwrap_or(Record {
        start: all,
        stop: all,
        next: all,
    })
}

// The first bytes of a file, as many as the list has room for.
pub fn read_list(rt: HostRuntime, path: &str, list: &mut [u8]) -> io::Result<usize>
    ensures { IfOk result (λ n. n ≤ length list.new) }
{
    let mut file = File::open(&rt, path)?;
    files::read_up_to(&mut file, list)
}

// ---- what the programs print

pub fn print_count(rt: HostRuntime, n: u64, what: &[u8]) {
    print_number(rt, n);
    print_text(rt, what);
}

// Which text of all differs, the file, and the byte there of the first number that was not as expected; nothing where all were.
pub fn print_difference(rt: HostRuntime, text: u64, path: &[u8], wrong: Option<usize>) {
    if let Some(byte) = wrong {
        print_text(rt, b"text ");
        print_number(rt, text);
        print_text(rt, b" differs, ");
        print_text(rt, path);
        print_text(rt, b" byte ");
        print_number(rt, byte as u64);
        print_text(rt, b"\n");
    }
}
