// The bytes of action records, coded from a text's tokens.
#![tactic(auto)]

mod code;

ghost use Rattle.std.specs.Prelude.{◌≡◌, true, length};
ghost use Rattle.std.proofs.lemmas.List.Edits.{sets};
ghost use Rattle.coding.specs.Heads.{operands_of, head_of, head_holds};

use crate::code::code_of;
use action_records::Style;
use field_coding::Coder;
use list_coding::Operands;
use shape_coding::put_fields;
use shapes::shape_of;

// The length of a record, and whether all of it can be coded.
// No Option: put_record's clause end_value promises the length of a record that cannot be coded too.
#[derive(Clone, Copy)]
pub struct Coded {
    pub end: usize,
    pub holds: bool,
}

// The record of an action, at the front of the output as far as it has room.
pub fn put_record(o: Operands, style: Style, out: &mut [u8]) -> Coded
    ensures end_value { result.end ≡ length (head_of style o.entry.action.name (operands_of o.entry)) }
    ensures holds_value { result.holds ≡ head_holds style o.entry.action.name (operands_of o.entry) }
    ensures out_after { result.holds ≡ true → out.new ≡ sets out.old 0 (head_of style o.entry.action.name (operands_of o.entry)) }
{
    let name = o.action.name;
    let code = code_of(name);
    let mut w = Coder {
        out,
        end: 0,
        holds: true,
    };
    w.put_byte(code, true);
    if code < 128 {
        return Coded {
            end: w.end,
            holds: w.holds,
        };
    }
    w.put_16(0);
    put_fields(o, style, shape_of(name), &mut w);
    let end = w.end;
    w.end = 1;
    w.put_16((end - 3) as u64);
    Coded {
        end,
        holds: w.holds,
    }
}
