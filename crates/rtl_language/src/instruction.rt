use lang_base::Row;
use rtl_acts::{Act, Register, Test};

/// A node of the graph: what it does, and where it goes on. Successors are node numbers.
#[derive(PartialEq, Eq, Drop)]
pub enum Instruction {
    Do {
        act: Act,
        successor: u16,
    },
    /// Runs the program's function of this number on copies of the arguments, defined or not. The
    /// target, where one is named, becomes what that returns.
    Call {
        function: u8,
        arguments: Row<Register>,
        target: Option<Register>,
        successor: u16,
    },
    /// Goes on to one node where the test holds, else to the other.
    Branch {
        test: Test,
        taken: u16,
        other: u16,
    },
    /// Ends the function, with the register's value where one is named.
    Return {
        value: Option<Register>,
    },
}
