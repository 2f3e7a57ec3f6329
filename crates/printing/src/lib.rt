// What the programs print: text, numbers, bounds and refusals, on standard output; text and numbers on standard error too. A write
// that fails is passed over: the scripts at the root see to it.
#![tactic(auto)]

use answers::Refusal;
use std::io::Print;
use tokens::Span;

// Where something is printed, to standard output or to standard error.
#[derive(Clone, Copy)]
pub enum Printer {
    Output(HostRuntime),
    Errors(HostRuntime),
}

impl Printer {
    pub fn text(self, text: &[u8]) {
        let _ = match self {
            Printer::Output(rt) => rt.stdout().write_all(text),
            Printer::Errors(rt) => rt.stderr().write_all(text),
        };
    }

    pub fn number(self, n: u64) {
        let _ = match self {
            Printer::Output(rt) => rt.stdout().print(n),
            Printer::Errors(rt) => rt.stderr().print(n),
        };
    }
}

pub fn print_text(rt: HostRuntime, text: &[u8]) {
    Printer::Output(rt).text(text);
}

pub fn print_number(rt: HostRuntime, n: u64) {
    Printer::Output(rt).number(n);
}

pub fn print_signed(rt: HostRuntime, n: i32) {
    if n < 0 {
        print_text(rt, b"-");
    }
    print_number(rt, u64::from(n.unsigned_abs()));
}

// A double's bits, 16 hexadecimal digits.
pub fn print_bits(rt: HostRuntime, bits: u64) {
    let _ = print!(rt; "{bits:016x}");
}

pub fn print_span(rt: HostRuntime, s: Span) {
    print_number(rt, s.start as u64);
    print_text(rt, b"..");
    print_number(rt, s.end as u64);
}

// As `pcode-list` prints it.
pub fn print_refusal(rt: HostRuntime, r: Refusal) {
    print_text(rt, b"refused ");
    print_number(rt, answers::refusal_number(r));
    print_text(rt, b" at ");
    print_number(rt, answers::refusal_place(r) as u64);
}
