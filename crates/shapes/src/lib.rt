// Which operands each action takes, for the grammar and for the action reader.
#![tactic(auto)]

ghost use Rattle.std.specs.Prelude.{◌≡◌};
ghost use Rattle.shapes.specs.Shapes.{shape_of};

use names::ActionName;

// A case for each operand list of document 01, 'Grammar'.
#[derive(Clone, Copy)]
pub enum Shape {
    Nothing,
    Values,
    Strings,
    StringString,
    BoolBoolU8,
    U16,
    BoolBoolMaybeU16,
    String,
    Identifier,
    U8,
    U16U8,
    Function,
    Function2,
    Block,
    Try,
}

pub fn shape_of(a: ActionName) -> Shape
    ensures { result ≡ shape_of a }
{
    match a {
        ActionName::Push => Shape::Values,
        ActionName::ConstantPool => Shape::Strings,
        ActionName::GetUrl => Shape::StringString,
        ActionName::GetUrl2 => Shape::BoolBoolU8,
        ActionName::GotoFrame => Shape::U16,
        ActionName::GotoFrame2 => Shape::BoolBoolMaybeU16,
        ActionName::GotoLabel | ActionName::SetTarget => Shape::String,
        ActionName::If | ActionName::Jump => Shape::Identifier,
        ActionName::StoreRegister | ActionName::WaitForFrame2 => Shape::U8,
        ActionName::WaitForFrame => Shape::U16U8,
        ActionName::DefineFunction => Shape::Function,
        ActionName::DefineFunction2 => Shape::Function2,
        ActionName::With => Shape::Block,
        ActionName::Try => Shape::Try,
        _ => Shape::Nothing,
    }
}
