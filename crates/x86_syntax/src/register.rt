ghost use Rattle.std.specs.Prelude.{◌≡◌, ◌<◌};

/// A register of 32 bits. The first eight hold a function's words: r8d to r11d are lost over a call, the four behind them are kept. The
/// other five are scratch. The stack pointer is none of them, nor are r14 and r15, which hold the globals' address and the stack's
/// limit.
#[derive(Clone, Copy, Debug, PartialEq, Eq)]
pub enum Register {
    R8d = 0,
    R9d,
    R10d,
    R11d,
    Ebx,
    Ebp,
    R12d,
    R13d,
    Eax,
    Ecx,
    Edx,
    Esi,
    Edi,
}

/// How many registers there are.
pub const REGISTER_COUNT: usize = 13;

impl Register {
    ghost use Rattle.x86_syntax.specs.Registers.{number_of};

    /// The register's number, from 0 to 12.
    #[tactic(auto, unfolding(crate::specs::Registers::number_of))]
    pub fn number(self) -> usize
        ensures value { result ≡ number_of self }
        ensures range { result < 13 }
    {
        self as usize
    }
}
