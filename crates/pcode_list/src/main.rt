// Program `pcode-list`: lists the p-code text on standard input, as document 01 says. The script pcode-list at the root has the options and
// makes the exit status.
#![tactic(auto)]

ghost use Rattle.handover.specs.Reading.{lent};
ghost use Rattle.pcode_list.specs.Listed.{Listed, NeverShort};

use answers::Refusal;
use as2_pcode::{Counts, Tables};
use files::Status;
use level_trees::Source;

// How many bytes of a text are listed.
const MOST: usize = 4096;

// Reads a text of at most 4,096 bytes into tables that hold any such text.
fn read_listed(
    text: &[u8],
    tokens: &mut [u64; 4096],
    actions: &mut [u64; 4097],
    operands: &mut [u64; 4097],
    levels: &mut [u64; 8194],
    labels: &mut [u64; 4097],
) -> Result<Counts, Refusal>
    ensures listed { Listed text.now (lent tokens.old actions.old operands.old levels.old labels.old) (lent tokens.new actions.new operands.new levels.new labels.new) result }
    ensures never_short { NeverShort result }
{
    if MOST < text.len() {
        return Err(Refusal::TooLong);
    }
    let mut tables = Tables {
        tokens,
        actions,
        operands,
        levels,
        labels,
    };
    as2_pcode::read(text, &mut tables)
}

fn list(rt: HostRuntime, text: &[u8]) {
    let mut tokens = [0u64; 4096];
    let mut actions = [0u64; 4097];
    let mut operands = [0u64; 4097];
    let mut levels = [0u64; 8194];
    let mut labels = [0u64; 4097];
    let r = read_listed(
        text,
        &mut tokens,
        &mut actions,
        &mut operands,
        &mut levels,
        &mut labels,
    );
    let of = Source {
        text,
        tokens: &tokens,
        actions: &actions,
        operands: &operands,
        levels: &levels,
        labels: &labels,
    };
    listing::print_reading(rt, of, r);
    let status = if r.is_ok() {
        Status::Read
    } else {
        Status::Refused
    };
    status.tell(rt);
}

// A byte more than is listed tells that there are more.
fn main(rt: HostRuntime) {
    let mut input = [0u8; 4097];
    match files::read_standard_input(rt, b"pcode-list", &mut input) {
        Some(n) => list(rt, &input[..n]),
        None => Status::Failed.tell(rt),
    }
}
