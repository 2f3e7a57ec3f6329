// Stack deltas. From pcode.rs.
#![tactic(auto)]

ghost use Rattle.std.specs.Prelude.{◌≡◌};
ghost use Rattle.pcode.specs.Deltas.{answer, delta_answer, fixed_delta};

use actions::action_number;
use answers::Refusal;
use names::ActionName;

// By the number of the action. The three rules and the undetermined ones of `delta` do not look here.
const DELTAS: [i32; 100] = [
    -1, // Add
    -1, // Add2
    -1, // And
    0, // AsciiToChar
    -1, // BitAnd
    -1, // BitLShift
    -1, // BitOr
    -1, // BitRShift
    -1, // BitURShift
    -1, // BitXor
    -1, // Call
    0, // CallFunction
    0, // CallMethod
    -1, // CastOp
    0, // CharToAscii
    -3, // CloneSprite
    0, // ConstantPool
    0, // Decrement
    0, // DefineFunction
    0, // DefineFunction2
    -2, // DefineLocal
    -1, // DefineLocal2
    -2, // Delete
    -1, // Delete2
    -1, // Divide
    0, // End
    0, // EndDrag
    0, // Enumerate
    0, // Enumerate2
    -1, // Equals
    -1, // Equals2
    -2, // Extends
    -1, // GetMember
    -1, // GetProperty
    1, // GetTime
    0, // GetUrl
    -2, // GetUrl2
    0, // GetVariable
    0, // GotoFrame
    -1, // GotoFrame2
    0, // GotoLabel
    -1, // Greater
    -1, // If
    0, // ImplementsOp
    0, // Increment
    0, // InitArray
    0, // InitObject
    -1, // InstanceOf
    0, // Jump
    -1, // Less
    -1, // Less2
    0, // MBAsciiToChar
    0, // MBCharToAscii
    -2, // MBStringExtract
    0, // MBStringLength
    -1, // Modulo
    -1, // Multiply
    0, // NewMethod
    1, // NewObject
    0, // NextFrame
    0, // Not
    -1, // Or
    0, // Play
    -1, // Pop
    0, // PrevFrame
    0, // Push
    1, // PushDuplicate
    0, // RandomNumber
    -1, // RemoveSprite
    -1, // Return
    -3, // SetMember
    -3, // SetProperty
    0, // SetTarget
    -1, // SetTarget2
    -2, // SetVariable
    0, // StackSwap
    0, // StartDrag
    0, // Stop
    0, // StopSounds
    0, // StoreRegister
    -1, // StrictEquals
    -1, // StringAdd
    -1, // StringEquals
    -2, // StringExtract
    -1, // StringGreater
    0, // StringLength
    -1, // StringLess
    -1, // Subtract
    0, // TargetPath
    -1, // Throw
    0, // ToInteger
    0, // ToNumber
    0, // ToString
    0, // ToggleQuality
    -1, // Trace
    0, // Try
    0, // TypeOf
    0, // WaitForFrame
    -1, // WaitForFrame2
    -1, // With
];

fn fixed_delta(name: ActionName) -> i32
    ensures { result ≡ fixed_delta name }
{
    let n = action_number(name);
    DELTAS[n]
}

// The values pushed less those popped: `stack_delta` of an action with that many values (Push) and that name (DefineFunction, DefineFunction2).
pub fn delta(name: ActionName, values: usize, name_is_empty: bool) -> Result<i32, Refusal>
    ensures { answer result ≡ delta_answer name values name_is_empty }
{
    if 65536 < values {
        return Err(Refusal::TooLong);
    }
    match name {
        ActionName::Push => Ok(values as i32),
        ActionName::DefineFunction | ActionName::DefineFunction2 => Ok(i32::from(name_is_empty)),
        ActionName::CallFunction
        | ActionName::CallMethod
        | ActionName::ImplementsOp
        | ActionName::InitArray
        | ActionName::InitObject
        | ActionName::NewMethod
        | ActionName::StartDrag => Err(Refusal::Undetermined),
        _ => Ok(fixed_delta(name)),
    }
}
