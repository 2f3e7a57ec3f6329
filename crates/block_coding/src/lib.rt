// The fields of the actions that own blocks: DefineFunction, DefineFunction2 and Try. The sizes of their blocks are 0.
#![tactic(auto)]

ghost use Rattle.std.specs.Prelude.{[], ◌∷◌};
ghost use Rattle.shapes.specs.declared.Shape.TheVariants as S;
ghost use Rattle.lexemes.specs.Events.{try, catch, finally};
ghost use Rattle.action_records.specs.Fields.{size};
ghost use Rattle.field_coding.specs.Coding.{Codes, Room, Adds};
ghost use Rattle.list_coding.specs.Operands.{values};
ghost use Rattle.block_coding.specs.Shapes.{plain_fields, before_parameters};

use field_coding::Coder;
use list_coding::{Operands, put_flags, put_parameters, put_texts};
use operand_coding::is_register;

pub fn put_function(o: Operands, w: &mut Coder)
    requires { Room 34359738368 w.old }
    ensures { Codes (plain_fields S.Function (values o.entry)) w.old w.new }
{
    o.put_text_at(0, w);
    w.put_16(o.action.count.saturating_sub(2) as u64);
    put_texts(o, 2, w);
    w.put_16(0);
}

// DefineFunction2 up to its parameters.
fn put_before_parameters(o: Operands, w: &mut Coder)
    requires { Room 131079 w.old }
    ensures codes { Codes (before_parameters (values o.entry)) w.old w.new }
    ensures adds { Adds 131079 w.old w.new }
{
    o.put_text_at(0, w);
    w.put_16(o.action.count.saturating_sub(12) as u64 / 2);
    w.put_8(o.number_at(2));
    put_flags(o, w);
}

pub fn put_function_2(o: Operands, w: &mut Coder)
    requires { Room 34359738368 w.old }
    ensures { Codes (plain_fields S.Function2 (values o.entry)) w.old w.new }
{
    put_before_parameters(o, w);
    put_parameters(o, w);
    w.put_16(0);
}

// The sizes of Try's three blocks.
fn put_sizes(w: &mut Coder)
    requires { Room 6 w.old }
    ensures { Codes (size try ∷ size catch ∷ size finally ∷ []) w.old w.new }
{
    w.put_16(0);
    w.put_16(0);
    w.put_16(0);
}

// A register's number, or the name of what is caught.
pub fn put_try(o: Operands, w: &mut Coder)
    requires { Room 34359738368 w.old }
    ensures { Codes (plain_fields S.Try (values o.entry)) w.old w.new }
{
    let kind = o.token_at(0).kind;
    if is_register(kind) {
        w.put_byte(4, true);
        put_sizes(w);
        w.put_8(o.number_at(0));
        return;
    }
    w.put_byte(0, true);
    put_sizes(w);
    o.put_text_at(0, w);
}
