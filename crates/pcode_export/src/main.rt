// Program `pcode-export [--as-printed] [FILE]`: the movie's bytes of a text, on standard output and nothing else there; or, on standard
// error, where it is refused and why. The script pcode-export at the root has the options and makes the exit status.
#![tactic(auto)]

use action_records::Style;
use answers::Refusal;
use as2_pcode::Tables;
use export::Exported;
use files::Status;
use printing::{Printer, print_text};
use std::env::Env;

// A parameter that is an array has its length by its type, so lending it on asks no proof.
fn write_movie(rt: HostRuntime, out: &[u8; 655360], n: usize) {
    print_text(rt, views::part(out, 0, n));
}

fn print_refused(rt: HostRuntime, name: &[u8], text: &[u8], tokens: &mut [u64; 65536], r: Refusal) {
    reporting::print_refused_at(Printer::Errors(rt), name, text, tokens, r);
}

fn export_into(
    text: &[u8],
    tokens: &mut [u64; 65536],
    actions: &mut [u64; 32769],
    operands: &mut [u64; 32769],
    levels: &mut [u64; 65538],
    labels: &mut [u64; 32769],
    style: Style,
    out: &mut [u8; 655360],
) -> Result<Exported, Refusal> {
    let mut tables = Tables {
        tokens,
        actions,
        operands,
        levels,
        labels,
    };
    export::export(text, &mut tables, style, out)
}

// An entry of each table but the tokens' takes two bytes of text or more, the top level none. That of a level has two
// words. A movie has at most ten bytes for each byte of its text.
fn export_text(rt: HostRuntime, name: &[u8], text: &[u8], style: Style) -> Status {
    let mut tokens = [0u64; 65536];
    let mut actions = [0u64; 32769];
    let mut operands = [0u64; 32769];
    let mut levels = [0u64; 65538];
    let mut labels = [0u64; 32769];
    let mut out = [0u8; 655360];
    let exported = export_into(
        text,
        &mut tokens,
        &mut actions,
        &mut operands,
        &mut levels,
        &mut labels,
        style,
        &mut out,
    );
    match exported {
        Ok(exported) => {
            write_movie(rt, &out, exported.bytes);
            Status::Read
        }
        Err(r) => {
            print_refused(rt, name, text, &mut tokens, r);
            Status::Refused
        }
    }
}

// A text of one byte over the limit is enough to refuse it.
fn export_file(rt: HostRuntime, name: &[u8], style: Style) -> Status {
    let mut text = [0u8; 65537];
    match files::read_file(rt, b"pcode-export", name, &mut text) {
        Some(n) => export_text(rt, name, &text[..n], style),
        None => Status::Failed,
    }
}

fn export_argument(rt: HostRuntime, i: usize, style: Style) -> Status {
    let mut name = [0u8; 4096];
    match rt.arg(i, &mut name) {
        Ok(n) => export_file(rt, &name[..n], style),
        Err(_) => {
            files::say_long_argument(rt, b"pcode-export");
            Status::Failed
        }
    }
}

fn is_as_printed(rt: HostRuntime, i: usize) -> bool {
    let mut option = [0u8; 4096];
    match rt.arg(i, &mut option) {
        Ok(n) => words::same_word(&option[..n], b"--as-printed"),
        Err(_) => false,
    }
}

// Argument 0 is the program. The last of the others names the file, whatever its name.
fn export_arguments(rt: HostRuntime, count: usize) -> Status {
    if count < 2 {
        return export_file(rt, b"-", Style::AsPlayed);
    }
    if count == 2 {
        return export_argument(rt, 1, Style::AsPlayed);
    }
    if is_as_printed(rt, 1) {
        return export_argument(rt, 2, Style::AsPrinted);
    }
    Printer::Errors(rt).text(b"usage: pcode-export [--as-printed] [FILE]\n");
    Status::Failed
}

fn main(rt: HostRuntime) {
    export_arguments(rt, files::argument_count(rt)).tell(rt);
}
