use locations::{Move, Register as MachineRegister};
use machine::{Act, Arguments};

/// A register of the machine, and the move between it and a location, if one is needed.
#[derive(Clone, Copy)]
pub(crate) struct Reached {
    pub register: MachineRegister,
    pub step: Option<Move>,
}

/// The arguments that are taken, and the moves that bring them there.
#[derive(Clone, Copy)]
pub(crate) struct Operands {
    pub arguments: Arguments,
    pub first: Option<Move>,
    pub second: Option<Move>,
}

/// What a block does that goes on: at most two moves, an act, and a move behind it.
#[derive(Clone, Copy)]
pub(crate) struct Plan {
    pub first: Option<Move>,
    pub second: Option<Move>,
    pub act: Option<Act>,
    pub after: Option<Move>,
}

impl Plan {
    pub const NOTHING: Plan = Plan {
        first: None,
        second: None,
        act: None,
        after: None,
    };
}
