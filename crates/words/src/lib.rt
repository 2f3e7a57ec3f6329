// The words of p-code: how the 100 actions are spelled, and which of them a word is, case ignored.
#![tactic(auto)]

ghost use Rattle.std.specs.Prelude.{◌≡◌, true, ◌+◌, ◌<◌, ◌≤◌, eqb, length};
ghost use Rattle.std.proofs.Math.Seq.{slice};
ghost use Rattle.words.specs.Spellings.{all_letters, spellings, spelling_of};
ghost use Rattle.words.specs.Words.{lower, same_word, index_in, find_in};
ghost use Rattle.words.specs.Tables.{Lent, cut, in_order};

use actions::action_number;
use names::ActionName;

// The letters of all names, one name after another.
pub const LETTERS: [u8; 856] =
    *b"AddAdd2AndAsciiToCharBitAndBitLShiftBitOrBitRShiftBitURShiftBitXorCallCallFunctionCallMethodCastOpCharToAsciiCloneSpriteConstantPoolDecrementDefineFunctionDefineFunction2DefineLocalDefineLocal2DeleteDelete2DivideEndEndDragEnumerateEnumerate2EqualsEquals2ExtendsGetMemberGetPropertyGetTimeGetUrlGetUrl2GetVariableGotoFrameGotoFrame2GotoLabelGreaterIfImplementsOpIncrementInitArrayInitObjectInstanceOfJumpLessLess2MBAsciiToCharMBCharToAsciiMBStringExtractMBStringLengthModuloMultiplyNewMethodNewObjectNextFrameNotOrPlayPopPrevFramePushPushDuplicateRandomNumberRemoveSpriteReturnSetMemberSetPropertySetTargetSetTarget2SetVariableStackSwapStartDragStopStopSoundsStoreRegisterStrictEqualsStringAddStringEqualsStringExtractStringGreaterStringLengthStringLessSubtractTargetPathThrowToIntegerToNumberToStringToggleQualityTraceTryTypeOfWaitForFrameWaitForFrame2With";

// Where each name starts in them, and their end.
pub const STARTS: [usize; 101] = [
    0, // Add
    3, // Add2
    7, // And
    10, // AsciiToChar
    21, // BitAnd
    27, // BitLShift
    36, // BitOr
    41, // BitRShift
    50, // BitURShift
    60, // BitXor
    66, // Call
    70, // CallFunction
    82, // CallMethod
    92, // CastOp
    98, // CharToAscii
    109, // CloneSprite
    120, // ConstantPool
    132, // Decrement
    141, // DefineFunction
    155, // DefineFunction2
    170, // DefineLocal
    181, // DefineLocal2
    193, // Delete
    199, // Delete2
    206, // Divide
    212, // End
    215, // EndDrag
    222, // Enumerate
    231, // Enumerate2
    241, // Equals
    247, // Equals2
    254, // Extends
    261, // GetMember
    270, // GetProperty
    281, // GetTime
    288, // GetUrl
    294, // GetUrl2
    301, // GetVariable
    312, // GotoFrame
    321, // GotoFrame2
    331, // GotoLabel
    340, // Greater
    347, // If
    349, // ImplementsOp
    361, // Increment
    370, // InitArray
    379, // InitObject
    389, // InstanceOf
    399, // Jump
    403, // Less
    407, // Less2
    412, // MBAsciiToChar
    425, // MBCharToAscii
    438, // MBStringExtract
    453, // MBStringLength
    467, // Modulo
    473, // Multiply
    481, // NewMethod
    490, // NewObject
    499, // NextFrame
    508, // Not
    511, // Or
    513, // Play
    517, // Pop
    520, // PrevFrame
    529, // Push
    533, // PushDuplicate
    546, // RandomNumber
    558, // RemoveSprite
    570, // Return
    576, // SetMember
    585, // SetProperty
    596, // SetTarget
    605, // SetTarget2
    615, // SetVariable
    626, // StackSwap
    635, // StartDrag
    644, // Stop
    648, // StopSounds
    658, // StoreRegister
    671, // StrictEquals
    683, // StringAdd
    692, // StringEquals
    704, // StringExtract
    717, // StringGreater
    730, // StringLength
    742, // StringLess
    752, // Subtract
    760, // TargetPath
    770, // Throw
    775, // ToInteger
    784, // ToNumber
    792, // ToString
    800, // ToggleQuality
    813, // Trace
    818, // Try
    821, // TypeOf
    827, // WaitForFrame
    839, // WaitForFrame2
    852, // With
    856, // the end
];

// Where the names begin whose first letter has each number, A and a being 1, and their end.
pub const FIRSTS: [usize; 33] = [
    0, // no letter
    0, // A
    4, // B
    10, // C
    17, // D
    25, // E
    32, // F
    32, // G
    42, // H
    42, // I
    48, // J
    49, // K
    49, // L
    51, // M
    57, // N
    61, // O
    62, // P
    67, // Q
    67, // R
    70, // S
    88, // T
    97, // U
    97, // V
    97, // W
    100, // X
    100, // Y
    100, // Z
    100, // no letter
    100, // no letter
    100, // no letter
    100, // no letter
    100, // no letter
    100, // the end
];

// An action's name as `ActionName` spells it: a part of `LETTERS`, which the caller lends.
pub fn spelling(letters: &[u8], a: ActionName) -> &[u8]
    requires { letters.now ≡ all_letters }
    ensures { result.now ≡ spelling_of a }
{
    let n = action_number(a);
    let starts = STARTS;
    let start = starts[n];
    let end = starts[n + 1];
    &letters[start..end]
}

// Of A to Z the small letter.
#[tactic(auto, unfolding(crate::specs::Words::lower))]
fn lower_byte(b: u8) -> u8
    ensures { result ≡ lower b }
{
    if matches!(b, b'A'..=b'Z') { b + 32 } else { b }
}

// Most words are written as the names are, so equal bytes are asked for first.
fn same_letter(a: u8, b: u8) -> bool
    ensures { result ≡ eqb (lower a) (lower b) }
{
    a == b || lower_byte(a) == lower_byte(b)
}

// Whether two words are the same, case ignored.
pub fn same_word(w: &[u8], n: &[u8]) -> bool
    ensures { result ≡ same_word w.now n.now }
{
    if w.len() != n.len() {
        return false;
    }
    for i in 0..w.len() {
        if !same_letter(w[i], n[i]) {
            return false;
        }
    }
    true
}

// The first name from `lo` up to `hi` that the word is, or `hi`. The names are the letters, cut at the starts.
pub fn find_between(w: &[u8], letters: &[u8], starts: &[usize], lo: usize, hi: usize) -> usize
    requires letters_value { in_order 0 starts.now (length letters.now) ≡ true }
    requires lo_le_hi { (lo ≤ hi) × (hi < length starts.now) }
    ensures { result ≡ lo + index_in w.now (slice lo hi (cut starts.now letters.now)) }
{
    for k in lo..hi {
        let start = starts[k];
        let end = starts[k + 1];
        if same_word(w, &letters[start..end]) {
            return k;
        }
    }
    hi
}

// The tables of the 100 names. Who goes over a whole text lends them once: a constant is copied each time it is named.
#[derive(Clone, Copy)]
pub struct Names<'a> {
    pub letters: &'a [u8],
    pub starts: &'a [usize],
    pub firsts: &'a [usize],
    ghost lent: { Lent letters.now starts.now firsts.now },
}

// The number of the action that the word names. Only names with the word's first letter are looked at.
pub fn find_name(w: &[u8], names: &Names) -> Option<usize>
    ensures { result ≡ find_in w.now spellings }
{
    if w.is_empty() {
        return None;
    }
    let letter = (w[0] % 32) as usize;
    let lo = names.firsts[letter];
    let hi = names.firsts[letter + 1];
    let i = find_between(w, names.letters, names.starts, lo, hi);
    if i < hi { Some(i) } else { None }
}
