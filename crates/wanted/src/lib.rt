// What an operand must be, by the shape of its action and its number, in words for the author of a patch.
#![tactic(auto)]

ghost use Rattle.std.specs.Prelude.{◌≡◌, [], ◌∷◌, replicate};
ghost use Rattle.wanted.specs.declared.Wanted.TheVariants as W;
ghost use Rattle.shapes.specs.declared.Shape.TheVariants as S;
ghost use Rattle.wanted.specs.Wanted.{nth, pairs, bias, wanted_at};

use shapes::Shape;

// What an operand must be, in the words of docs/FORMAT.md. Flag is one of the nine bools of a DefineFunction2, Parameter the name of a
// function's parameter, Register the number before it.
#[derive(Clone, Copy)]
pub enum Wanted {
    // no operand may stand there; with Option, Some would stand around each of the others here and in the specs' table
    Nothing,
    String,
    Value,
    Bool,
    Flag,
    U8,
    U16,
    Count,
    Parameter,
    Register,
    Label,
    Target,
}

fn only_first(number: usize, first: Wanted) -> Wanted
    ensures { result ≡ nth (first ∷ []) number }
{
    if number == 0 { first } else { Wanted::Nothing }
}

fn of_two(number: usize, first: Wanted, second: Wanted) -> Wanted
    ensures { result ≡ nth (first ∷ second ∷ []) number }
{
    match number {
        0 => first,
        1 => second,
        _ => Wanted::Nothing,
    }
}

fn of_three(number: usize, first: Wanted, second: Wanted, third: Wanted) -> Wanted
    ensures { result ≡ nth (first ∷ second ∷ third ∷ []) number }
{
    match number {
        0 => first,
        1 => second,
        2 => third,
        _ => Wanted::Nothing,
    }
}

// GotoFrame2: a bias follows where the first bool is true.
fn wanted_of_frame(number: usize, given: usize) -> Wanted
    ensures { result ≡ nth (W.Bool ∷ W.Bool ∷ bias given ∷ []) number }
{
    if given == 0 {
        return of_three(number, Wanted::Bool, Wanted::Bool, Wanted::Nothing);
    }
    of_three(number, Wanted::Bool, Wanted::Bool, Wanted::U16)
}

// Of a function's parameters, that of an index.
fn wanted_of_parameter(index: usize, count: usize, what: Wanted) -> Wanted
    ensures { result ≡ nth (replicate count what) index }
{
    if index < count { what } else { Wanted::Nothing }
}

// DefineFunction: a name, a count, as many parameters.
fn wanted_of_function(number: usize, count: usize) -> Wanted
    ensures { result ≡ wanted_at S.Function number count }
{
    match number {
        0 => Wanted::String,
        1 => Wanted::Count,
        _ => wanted_of_parameter(number - 2, count, Wanted::Parameter),
    }
}

fn wanted_of_pair(index: usize, count: usize) -> Wanted
    ensures { result ≡ nth (pairs count) index }
{
    if index % 2 == 0 {
        return wanted_of_parameter(index / 2, count, Wanted::Register);
    }
    wanted_of_parameter(index / 2, count, Wanted::Parameter)
}

// DefineFunction2: a name, a count, a number of registers, nine bools, as many pairs.
fn wanted_of_function2(number: usize, count: usize) -> Wanted
    ensures { result ≡ wanted_at S.Function2 number count }
{
    if 12 <= number {
        return wanted_of_pair(number - 12, count);
    }
    if 3 <= number {
        return Wanted::Flag;
    }
    of_three(number, Wanted::String, Wanted::Count, Wanted::U8)
}

// What the operand of a number must be. `given` is what the operands before it say of it: a function's count; of a GotoFrame2, 1 if
// its first bool is true.
pub fn wanted_at(shape: Shape, number: usize, given: usize) -> Wanted
    ensures { result ≡ wanted_at shape number given }
{
    match shape {
        Shape::Nothing => Wanted::Nothing,
        Shape::Values => Wanted::Value,
        Shape::Strings => Wanted::String,
        Shape::StringString => of_two(number, Wanted::String, Wanted::String),
        Shape::BoolBoolU8 => of_three(number, Wanted::Bool, Wanted::Bool, Wanted::U8),
        Shape::U16 => only_first(number, Wanted::U16),
        Shape::BoolBoolMaybeU16 => wanted_of_frame(number, given),
        Shape::String => only_first(number, Wanted::String),
        Shape::Identifier => only_first(number, Wanted::Label),
        Shape::U8 => only_first(number, Wanted::U8),
        Shape::U16U8 => of_two(number, Wanted::U16, Wanted::U8),
        Shape::Function => wanted_of_function(number, given),
        Shape::Function2 => wanted_of_function2(number, given),
        Shape::Block => Wanted::Nothing,
        Shape::Try => only_first(number, Wanted::Target),
    }
}
