// Prints the 100 actions, a line each: number, name, stack delta. Its expected output is typed from document 01.
#![tactic(auto)]

use names::ActionName;
use printing::{print_number, print_signed, print_text};

// The three rules beside the table show as what the delta depends on.
fn print_delta(rt: HostRuntime, a: ActionName) {
    let Ok(d) = pcode::delta(a, 0, false) else {
        print_text(rt, b"?");
        return;
    };
    if let Ok(65536) = pcode::delta(a, 65536, false) {
        print_text(rt, b"its value count");
        return;
    }
    if pcode::delta(a, 0, true).ok() != Some(d) {
        print_text(rt, b"1 if the raw name is empty, else ");
    }
    print_signed(rt, d);
}

// Two lines as in `listing`, which stands above what this program needs.
fn print_name(rt: HostRuntime, a: ActionName) {
    let letters = words::LETTERS;
    print_text(rt, words::spelling(&letters, a));
}

fn print_row(rt: HostRuntime, n: usize) {
    let a = actions::action_at(n);
    print_number(rt, actions::action_number(a) as u64);
    print_text(rt, b" ");
    print_name(rt, a);
    print_text(rt, b" ");
    print_delta(rt, a);
    print_text(rt, b"\n");
}

fn main(rt: HostRuntime) {
    for n in 0..100 {
        print_row(rt, n);
    }
}
