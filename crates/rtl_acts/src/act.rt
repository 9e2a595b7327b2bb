use crate::arguments::Arguments;
use crate::register::Register;
use ints::Op;

/// An instruction that goes on to what follows it, within its function (Leroy 2009, section 3.2).
/// Globals are meant by number, and their cells by the word of a register.
#[derive(Clone, Copy, PartialEq, Eq)]
pub enum Act {
    /// Does nothing.
    Nop,
    /// The target becomes the word.
    Constant {
        target: Register,
        word: u32,
    },
    /// The target becomes what the source holds, defined or not.
    Move {
        target: Register,
        source: Register,
    },
    /// The target becomes what the operator gives.
    Operate {
        op: Op,
        target: Register,
        arguments: Arguments,
    },
    /// The target becomes the word in the global's cell.
    Load {
        target: Register,
        global: u16,
        index: Register,
    },
    /// The global's cell becomes what the source holds.
    Store {
        global: u16,
        index: Register,
        source: Register,
    },
    /// Prints the low eight bits of the source as one byte, which the target becomes where one is named.
    Put {
        source: Register,
        target: Option<Register>,
    },
}
