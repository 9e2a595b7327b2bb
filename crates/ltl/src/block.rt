use lang_base::Row;
use machine::{Act, Location, Move, Register, Test};

/// A node of the graph: moves, and then what it does and where it goes on.
#[derive(PartialEq, Eq, Drop)]
pub struct Block {
    /// Done first, one after the other.
    pub before: Row<Move>,
    pub body: Body,
}

/// What a block does behind its first moves. Successors are node numbers.
#[derive(PartialEq, Eq, Drop)]
pub enum Body {
    /// Does the act, if there is one, then the moves, and goes on.
    Go {
        act: Option<Act>,
        after: Row<Move>,
        successor: u16,
    },
    /// Runs the program's function of this number on copies of what the arguments hold, defined or
    /// not. Then r0 to r3 are lost, the target, where one is named, becomes what that returns, and
    /// the moves are done.
    Call {
        function: u8,
        arguments: Row<Location>,
        target: Option<Location>,
        after: Row<Move>,
        successor: u16,
    },
    /// Goes on to one node where the test holds, else to the other.
    Branch {
        test: Test,
        taken: u16,
        other: u16,
    },
    /// Ends the function, with the register's value where one is named.
    Return {
        value: Option<Register>,
    },
}
