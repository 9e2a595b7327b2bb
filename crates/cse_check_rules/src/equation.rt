use ints::Op;
use rtl_acts::{Arguments, Register};

/// What stands on the right of an equation.
#[derive(Clone, Copy, PartialEq, Eq)]
pub enum RightSide {
    /// What the operator gives.
    Operation { op: Op, arguments: Arguments },
    /// The word in the global's cell.
    Cell { global: u16, index: Register },
    /// What the source holds, defined or not.
    Copy { source: Register },
}

/// At a node the register holds what the right side gives there.
#[derive(Clone, Copy, PartialEq, Eq)]
pub struct Equation {
    pub register: Register,
    pub right: RightSide,
}
