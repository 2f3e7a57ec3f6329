// SWF19's code of each action.
ghost use Rattle.std.specs.Prelude.{◌≡◌};
ghost use Rattle.action_records.specs.Codes.{listed};

use actions::action_number;
use names::ActionName;

// By the number of the action.
const CODES: [u8; 100] = [
    0x0A, // Add
    0x47, // Add2
    0x10, // And
    0x33, // AsciiToChar
    0x60, // BitAnd
    0x63, // BitLShift
    0x61, // BitOr
    0x64, // BitRShift
    0x65, // BitURShift
    0x62, // BitXor
    0x9E, // Call
    0x3D, // CallFunction
    0x52, // CallMethod
    0x2B, // CastOp
    0x32, // CharToAscii
    0x24, // CloneSprite
    0x88, // ConstantPool
    0x51, // Decrement
    0x9B, // DefineFunction
    0x8E, // DefineFunction2
    0x3C, // DefineLocal
    0x41, // DefineLocal2
    0x3A, // Delete
    0x3B, // Delete2
    0x0D, // Divide
    0x00, // End
    0x28, // EndDrag
    0x46, // Enumerate
    0x55, // Enumerate2
    0x0E, // Equals
    0x49, // Equals2
    0x69, // Extends
    0x4E, // GetMember
    0x22, // GetProperty
    0x34, // GetTime
    0x83, // GetUrl
    0x9A, // GetUrl2
    0x1C, // GetVariable
    0x81, // GotoFrame
    0x9F, // GotoFrame2
    0x8C, // GotoLabel
    0x67, // Greater
    0x9D, // If
    0x2C, // ImplementsOp
    0x50, // Increment
    0x42, // InitArray
    0x43, // InitObject
    0x54, // InstanceOf
    0x99, // Jump
    0x0F, // Less
    0x48, // Less2
    0x37, // MBAsciiToChar
    0x36, // MBCharToAscii
    0x35, // MBStringExtract
    0x31, // MBStringLength
    0x3F, // Modulo
    0x0C, // Multiply
    0x53, // NewMethod
    0x40, // NewObject
    0x04, // NextFrame
    0x12, // Not
    0x11, // Or
    0x06, // Play
    0x17, // Pop
    0x05, // PrevFrame
    0x96, // Push
    0x4C, // PushDuplicate
    0x30, // RandomNumber
    0x25, // RemoveSprite
    0x3E, // Return
    0x4F, // SetMember
    0x23, // SetProperty
    0x8B, // SetTarget
    0x20, // SetTarget2
    0x1D, // SetVariable
    0x4D, // StackSwap
    0x27, // StartDrag
    0x07, // Stop
    0x09, // StopSounds
    0x87, // StoreRegister
    0x66, // StrictEquals
    0x21, // StringAdd
    0x13, // StringEquals
    0x15, // StringExtract
    0x68, // StringGreater
    0x14, // StringLength
    0x29, // StringLess
    0x0B, // Subtract
    0x45, // TargetPath
    0x2A, // Throw
    0x18, // ToInteger
    0x4A, // ToNumber
    0x4B, // ToString
    0x08, // ToggleQuality
    0x26, // Trace
    0x8F, // Try
    0x44, // TypeOf
    0x8A, // WaitForFrame
    0x8D, // WaitForFrame2
    0x94, // With
];

pub fn code_of(name: ActionName) -> u8
    ensures { result ≡ (listed name).code }
{
    let n = action_number(name);
    CODES[n]
}
