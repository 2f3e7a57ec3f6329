// The fields of a record by the shape of its operands; sizes of bodies and offsets of jumps are 0.
#![tactic(auto)]

ghost use Rattle.shapes.specs.declared.Shape.TheVariants as S;
ghost use Rattle.field_coding.specs.Coding.{Codes, Room};
ghost use Rattle.list_coding.specs.Operands.{values};
ghost use Rattle.block_coding.specs.Shapes.{shape_fields, plain_fields};

use action_records::Style;
use block_coding::{put_function, put_function_2, put_try};
use field_coding::Coder;
use list_coding::{Operands, put_frame_bits, put_texts, put_url_bits, put_values};
use shapes::Shape;

fn put_pool(o: Operands, w: &mut Coder)
    requires { Room 34359738368 w.old }
    ensures { Codes (plain_fields S.Strings (values o.entry)) w.old w.new }
{
    w.put_16(o.action.count as u64);
    put_texts(o, 0, w);
}

fn put_url(o: Operands, w: &mut Coder)
    requires { Room 34359738368 w.old }
    ensures { Codes (plain_fields S.StringString (values o.entry)) w.old w.new }
{
    o.put_text_at(0, w);
    o.put_text_at(1, w);
}

fn put_url_2(o: Operands, style: Style, w: &mut Coder)
    requires { Room 34359738368 w.old }
    ensures { Codes (shape_fields style S.BoolBoolU8 (values o.entry)) w.old w.new }
{
    put_url_bits(style, o.number_at(0), o.number_at(1), o.number_at(2), w);
}

// A bias of 0 is none.
fn put_goto_frame_2(o: Operands, w: &mut Coder)
    requires { Room 34359738368 w.old }
    ensures { Codes (plain_fields S.BoolBoolMaybeU16 (values o.entry)) w.old w.new }
{
    let scene = o.number_at(0);
    let play = o.number_at(1);
    let bias = o.number_at(2);
    if bias == 0 {
        put_frame_bits(0, play, w);
        return;
    }
    if scene == 0 {
        put_frame_bits(0, play, w);
        return;
    }
    put_frame_bits(1, play, w);
    w.put_16(bias);
}

// The fields of a shape.
pub fn put_fields(o: Operands, style: Style, shape: Shape, w: &mut Coder)
    requires { Room 34359738368 w.old }
    ensures { Codes (shape_fields style shape (values o.entry)) w.old w.new }
{
    match shape {
        Shape::Nothing => {}
        Shape::Values => put_values(o, w),
        Shape::Strings => put_pool(o, w),
        Shape::StringString => put_url(o, w),
        Shape::BoolBoolU8 => put_url_2(o, style, w),
        Shape::U16 => w.put_16(o.number_at(0)),
        Shape::BoolBoolMaybeU16 => put_goto_frame_2(o, w),
        Shape::String => o.put_text_at(0, w),
        Shape::Identifier => w.put_16(0),
        Shape::U8 => w.put_8(o.number_at(0)),
        Shape::U16U8 => {
            w.put_16(o.number_at(0));
            w.put_8(o.number_at(1));
        }
        Shape::Function => put_function(o, w),
        Shape::Function2 => put_function_2(o, w),
        Shape::Block => w.put_16(0),
        Shape::Try => put_try(o, w),
    }
}
