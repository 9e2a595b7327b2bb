use ints::Op;
use locations::Register;

/// Why a step has no answer.
#[derive(Clone, Copy, Debug, PartialEq, Eq)]
pub enum Cause {
    /// This register is used and holds no word.
    Undefined(Register),
    /// The operator gives nothing for this word.
    One(Op, u32),
    /// The operator gives nothing for these words.
    Two(Op, u32, u32),
    /// This global has no cell of this index, or is not there.
    Past(u16, u32),
    /// This label stands nowhere in the function.
    NoLabel(u16),
    /// The program has no function of this number.
    NoFunction(u8),
    /// The function of this number takes another number of arguments than these.
    OtherArguments(u8, usize),
    /// The function's code ends here.
    NoInstruction,
    /// `main` returns, and no word.
    NoResult,
    /// The program has no `main` to begin with.
    NoMain,
}
