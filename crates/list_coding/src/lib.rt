// The operands of an action: one by its place, lists of them, and flags in bits.
#![tactic(auto)]

mod operands;

ghost use Rattle.std.specs.Prelude.{◌≡◌, [], ◌∷◌, map, ◌<◌, drop};
ghost use Rattle.action_records.specs.Fields.{bits};
ghost use Rattle.action_records.specs.Operands as R;
ghost use Rattle.field_coding.specs.Coding.{Codes, Room, Adds};
ghost use Rattle.list_coding.specs.Operands.{values};
ghost use Rattle.list_coding.specs.Flags.{Flagged, flag_fields, frame_bits};

use action_records::Style;
use field_coding::Coder;
pub use operands::Operands;

// Four flags as a number, and whether each is 0 or 1.
// No Option: `Flagged` promises the number of flags that are not 0 or 1 too.
#[derive(Clone, Copy)]
struct Flags {
    value: u64,
    holds: bool,
}

// ---- lists of operands

pub fn put_values(o: Operands, w: &mut Coder)
    requires { Room 34359738368 w.old }
    ensures { Codes (R.pushed (values o.entry)) w.old w.new }
{
    for k in 0..o.action.count {
        o.put_pushed_at(k, w);
    }
}

// The strings of the operands from `from` on.
pub fn put_texts(o: Operands, from: usize, w: &mut Coder)
    requires { (from < 131072) × Room 17180262400 w.old }
    ensures codes { Codes (map R.text (drop from (values o.entry))) w.old w.new }
    ensures adds { Adds 17180262400 w.old w.new }
{
    for k in from..o.action.count {
        o.put_text_at(k, w);
    }
}

// Register and name of each parameter, from operand 12 on.
pub fn put_parameters(o: Operands, w: &mut Coder)
    requires { Room 17180262400 w.old }
    ensures codes { Codes (R.parameters (drop 12 (values o.entry))) w.old w.new }
    ensures adds { Adds 17180262400 w.old w.new }
{
    for pair in 0..o.action.count.saturating_sub(12) / 2 {
        let k = 12 + 2 * pair;
        w.put_8(o.number_at(k));
        o.put_text_at(k + 1, w);
    }
}

// ---- flags

fn four_flags(o: Operands, k: usize) -> Flags
    requires { k < 131072 }
    ensures flagged { Flagged (values o.entry) k result }
    ensures value_bound { result.value < 68719476736 }
{
    let a = o.number_at(k);
    let b = o.number_at(k + 1);
    let c = o.number_at(k + 2);
    let d = o.number_at(k + 3);
    Flags {
        value: ((a * 2 + b) * 2 + c) * 2 + d,
        holds: a < 2 && b < 2 && c < 2 && d < 2,
    }
}

// The nine flags of DefineFunction2: eight in a byte, the last in a byte of its own.
pub fn put_flags(o: Operands, w: &mut Coder)
    requires { Room 2 w.old }
    ensures { Codes (flag_fields (values o.entry)) w.old w.new }
{
    let high = four_flags(o, 3);
    let low = four_flags(o, 7);
    let last = o.number_at(11);
    w.put_bits(high.value * 16 + low.value, high.holds && low.holds);
    w.put_bits(last, last < 2);
}

// GetURL2's LoadVariables, LoadTarget and method.
pub fn put_url_bits(style: Style, v: u64, t: u64, m: u64, w: &mut Coder)
    requires v_bound { (v < 4294967296) × ((t < 4294967296) × (m < 4294967296)) }
    requires room { Room 1 w.old }
    ensures { Codes (bits (R.url_bits style v t m) ∷ []) w.old w.new }
{
    let n = match style {
        Style::AsPlayed => v * 128 + t * 64 + m,
        Style::AsPrinted => m * 64 + t * 2 + v,
    };
    w.put_bits(n, v < 2 && t < 2 && m < 4);
}

// GotoFrame2's SceneBias flag and Play flag.
pub fn put_frame_bits(bias: u64, play: u64, w: &mut Coder)
    requires bias_bound { (bias < 2) × (play < 4294967296) }
    requires room { Room 1 w.old }
    ensures { Codes (frame_bits bias play ∷ []) w.old w.new }
{
    w.put_bits(bias * 2 + play, bias < 2 && play < 2);
}
