// Program `pcode-check FILE..`: of each file, that it is read, with a warning for each unclosed string; or where it is refused, what was
// expected there and the line with a mark. The last line says how many were refused. The script pcode-check at the root has the options
// and makes the exit status.
#![tactic(auto)]

use as2_pcode::{Counts, Tables};
use files::{Outcome, Status, Tally};
use printing::{Printer, print_number, print_text};
use reporting::print_name;
use std::env::Env;

fn print_ok(rt: HostRuntime, name: &[u8], c: Counts) {
    print_name(Printer::Output(rt), name);
    print_text(rt, b": ok, ");
    reporting::print_counts(rt, c.actions, c.operands, c.levels, c.labels);
}

// An entry of each table but the tokens' takes two bytes of text or more, the top level none. That of a level has two words.
fn check_text(rt: HostRuntime, name: &[u8], text: &[u8]) -> Outcome {
    let mut tokens = [0u64; 65536];
    let mut actions = [0u64; 32769];
    let mut operands = [0u64; 32769];
    let mut levels = [0u64; 65538];
    let mut labels = [0u64; 32769];
    let mut tables = Tables {
        tokens: &mut tokens,
        actions: &mut actions,
        operands: &mut operands,
        levels: &mut levels,
        labels: &mut labels,
    };
    match as2_pcode::read(text, &mut tables) {
        Ok(c) => {
            print_ok(rt, name, c);
            Outcome::Read(reporting::print_warnings(rt, name, text, &tokens, &operands, c.operands))
        }
        Err(r) => {
            reporting::print_refused(Printer::Output(rt), name, text, &mut tokens, r);
            Outcome::Refused
        }
    }
}

// A text of one byte over the limit is enough to refuse it.
fn check_file(rt: HostRuntime, name: &[u8]) -> Outcome {
    let mut text = [0u8; 65537];
    match files::read_file(rt, b"pcode-check", name, &mut text) {
        Some(n) => check_text(rt, name, &text[..n]),
        None => Outcome::Failed,
    }
}

fn check_argument(rt: HostRuntime, i: usize) -> Outcome {
    let mut name = [0u8; 4096];
    match rt.arg(i, &mut name) {
        Ok(n) => check_file(rt, &name[..n]),
        Err(_) => {
            files::say_long_argument(rt, b"pcode-check");
            Outcome::Failed
        }
    }
}

// The arguments from 1 on: argument 0 is the program.
fn check_arguments(rt: HostRuntime, count: usize) -> Tally {
    let mut tally = Tally::default();
    for i in 1..count {
        tally.add(check_argument(rt, i));
    }
    tally
}

fn print_tally(rt: HostRuntime, t: Tally, count: usize) {
    print_number(rt, t.refused);
    print_text(rt, b" of ");
    reporting::print_count(rt, count as u64, b"file");
    print_text(rt, b" refused");
    if 0 < t.failed {
        print_text(rt, b", ");
        print_number(rt, t.failed);
        print_text(rt, b" could not be read");
    }
    if 0 < t.warnings {
        print_text(rt, b", ");
        reporting::print_count(rt, t.warnings, b"warning");
    }
    print_text(rt, b"\n");
}

fn main(rt: HostRuntime) {
    let count = files::argument_count(rt);
    if count < 2 {
        Printer::Errors(rt).text(b"usage: pcode-check FILE..\n");
        Status::Failed.tell(rt);
        return;
    }
    let t = check_arguments(rt, count);
    print_tally(rt, t, count - 1);
    t.status().tell(rt);
}
