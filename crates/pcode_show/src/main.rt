// Program `pcode-show FILE..`: what each file was read as, or where it is refused and what was expected there. The script pcode-show at
// the root has the options and makes the exit status.
#![tactic(auto)]

use as2_pcode::{Counts, Tables};
use files::{Outcome, Tally};
use level_trees::Source;
use printing::{Printer, print_text};
use reporting::print_name;
use std::env::Env;

fn print_head(rt: HostRuntime, name: &[u8], c: Counts) {
    print_text(rt, b"file  ");
    print_name(Printer::Output(rt), name);
    print_text(rt, b": ");
    reporting::print_counts(rt, c.actions, c.operands, c.levels, c.labels);
}

// An entry of each table but the tokens' takes two bytes of text or more, the top level none. That of a level has two words.
fn show_text(rt: HostRuntime, name: &[u8], text: &[u8]) -> Outcome {
    let mut tokens = [0u64; 65536];
    let mut actions = [0u64; 32769];
    let mut operands = [0u64; 32769];
    let mut levels = [0u64; 65538];
    let mut labels = [0u64; 32769];
    let mut tables = Tables {
        tokens: &mut tokens,
        actions: &mut actions,
        operands: &mut operands,
        levels: &mut levels,
        labels: &mut labels,
    };
    match as2_pcode::read(text, &mut tables) {
        Ok(c) => {
            print_head(rt, name, c);
            let of = Source {
                text,
                tokens: &tokens,
                actions: &actions,
                operands: &operands,
                levels: &levels,
                labels: &labels,
            };
            showing::print_shown(rt, of, c);
            Outcome::Read(0)
        }
        Err(r) => {
            reporting::print_refused(Printer::Output(rt), name, text, &mut tokens, r);
            Outcome::Refused
        }
    }
}

// An empty line parts two files.
fn show_next(rt: HostRuntime, name: &[u8], text: &[u8], is_first: bool) -> Outcome {
    if !is_first {
        print_text(rt, b"\n");
    }
    show_text(rt, name, text)
}

// A text of one byte over the limit is enough to refuse it.
fn show_file(rt: HostRuntime, name: &[u8], is_first: bool) -> Outcome {
    let mut text = [0u8; 65537];
    match files::read_file(rt, b"pcode-show", name, &mut text) {
        Some(n) => show_next(rt, name, &text[..n], is_first),
        None => Outcome::Failed,
    }
}

fn show_argument(rt: HostRuntime, i: usize, is_first: bool) -> Outcome {
    let mut name = [0u8; 4096];
    match rt.arg(i, &mut name) {
        Ok(n) => show_file(rt, &name[..n], is_first),
        Err(_) => {
            files::say_long_argument(rt, b"pcode-show");
            Outcome::Failed
        }
    }
}

// The arguments from 1 on: argument 0 is the program. Nothing is printed of a file that cannot be read.
fn show_arguments(rt: HostRuntime, count: usize) -> Tally {
    let mut tally = Tally::default();
    let mut is_first = true;
    for i in 1..count {
        let outcome = show_argument(rt, i, is_first);
        is_first &= matches!(outcome, Outcome::Failed);
        tally.add(outcome);
    }
    tally
}

fn main(rt: HostRuntime) {
    let tally = show_arguments(rt, files::argument_count(rt));
    tally.status().tell(rt);
}
