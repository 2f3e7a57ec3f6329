// The net of a level behind one more of its actions.
#![tactic(auto)]

ghost use Rattle.std.specs.Prelude.{◌≡◌, ◌≤◌, ◌+ℤ◌};
ghost use Rattle.entries.specs.declared.Net.TheVariants as N;
ghost use Rattle.entries.specs.Levels.{SmallNet, NetFits};
ghost use Rattle.nets.specs.Nets.{first_is_empty, moved_by};
ghost use Rattle.pcode.specs.Deltas.{delta_of};

use entries::{Net, operand_in, token_in};
use names::ActionName;
use pcode::delta;
use tokens::raw_text;

// Whether there is a first operand and its raw text is empty.
pub fn first_is_empty(text: &[u8], s: &[u64], operands: &[u64], from: usize, to: usize) -> bool
    ensures { result ≡ first_is_empty text.now s.now operands.now from to }
{
    if to <= from {
        return false;
    }
    let operand = operand_in(operands, from);
    let token = token_in(s, operand.token);
    let raw = raw_text(text, token);
    raw.is_empty()
}

// A height, moved by a delta.
fn raised(h: i64, by: i32) -> i64
    requires { SmallNet (N.Height h) }
    ensures { result ≡ h +ℤ by }
{
    h + i64::from(by)
}

// The net behind action a, which has so many operands. Once undetermined, it stays with the first action that made it so.
pub fn next_net(net: Net, a: usize, name: ActionName, values: usize, empty: bool) -> Net
    requires { SmallNet net × ((a ≤ 65536) × (values ≤ 65536)) }
    ensures value { result ≡ moved_by (delta_of name values empty) a net }
    ensures net_fits { NetFits result }
{
    match net {
        Net::Undetermined(_) => net,
        Net::Height(h) => {
            match delta(name, values, empty) {
                Ok(by) => Net::Height(raised(h, by)),
                Err(_) => Net::Undetermined(a),
            }
        }
    }
}
