use crate::condition::Condition;
use crate::operators::{Operator, Shifting, Turning};
use crate::register::Register;

/// An instruction. It goes on to the next, but for a jump that is taken, a stop, a call and a return. Globals and functions are meant by
/// number, cells of the stack by their distance from its top.
#[derive(Clone, Copy)]
pub enum Instruction {
    /// A place to go to. It does nothing.
    Label {
        label: u16,
    },
    /// Nothing.
    Skip,
    Copy {
        target: Register,
        source: Register,
    },
    Set {
        target: Register,
        word: u32,
    },
    /// Reads a cell of the stack.
    Take {
        target: Register,
        cell: u16,
    },
    /// Writes a cell of the stack.
    Keep {
        cell: u16,
        source: Register,
    },
    Do {
        op: Operator,
        target: Register,
        source: Register,
    },
    DoWith {
        op: Operator,
        target: Register,
        word: u32,
    },
    Turn {
        op: Turning,
        target: Register,
    },
    Shift {
        op: Shifting,
        target: Register,
        count: u32,
    },
    /// Shifts by ecx.
    ShiftBy {
        op: Shifting,
        target: Register,
    },
    /// Fills edx with the sign of eax.
    Extend,
    /// Divides edx and eax, read as one signed number, the quotient to eax and the rest to edx.
    Divide {
        divisor: Register,
    },
    /// The same, all read as unsigned.
    DivideU {
        divisor: Register,
    },
    Compare {
        left: Register,
        right: Register,
    },
    CompareWith {
        left: Register,
        word: u32,
    },
    /// The target becomes 1 where the condition holds, else 0.
    Flag {
        condition: Condition,
        target: Register,
    },
    Jump {
        label: u16,
    },
    JumpIf {
        condition: Condition,
        label: u16,
    },
    /// Ends the run as one that went wrong.
    Stop,
    StopIf {
        condition: Condition,
    },
    Load {
        target: Register,
        global: u16,
        index: Register,
    },
    Store {
        global: u16,
        index: Register,
        source: Register,
    },
    LoadAt {
        target: Register,
        global: u16,
        cell: u32,
    },
    StoreAt {
        global: u16,
        cell: u32,
        source: Register,
    },
    Call {
        function: u8,
    },
    Return,
    /// Ends the run where the stack has grown past its room.
    Room,
    /// Puts cells on the stack, whatever they hold.
    Grow {
        count: u16,
    },
    /// Takes cells off the stack.
    Shrink {
        count: u16,
    },
    /// Prints the low eight bits of edi as one byte.
    Put,
}
