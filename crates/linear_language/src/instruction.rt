use lang_base::Row;
use locations::{Location, Move, Register};
use machine::{Act, Test};

/// An instruction. It goes on to the next, but for a jump that is taken and a return.
#[derive(PartialEq, Eq, Drop)]
pub enum Instruction {
    Do {
        act: Act,
    },
    Copy {
        step: Move,
    },
    /// Runs the program's function of this number on copies of what the arguments hold, defined or
    /// not. Then r0 to r3 are lost, and the target, where one is named, becomes what that returns.
    Call {
        function: u8,
        arguments: Row<Location>,
        target: Option<Location>,
    },
    /// Goes on at the label where the test holds.
    Branch {
        test: Test,
        label: u16,
    },
    /// Ends the function, with the register's value where one is named.
    Return {
        value: Option<Register>,
    },
    /// A place to go to. It does nothing.
    Label {
        label: u16,
    },
    /// Goes on at the label.
    Goto {
        label: u16,
    },
}
