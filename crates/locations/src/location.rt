use crate::register::Register;

/// Where a word of a function lies.
#[derive(Clone, Copy, Debug, PartialEq, Eq)]
pub enum Location {
    InRegister(Register),
    /// A slot of the function's frame, by its number.
    InSlot(u16),
}

/// A copy from one location to another, of which at most one is a slot.
#[derive(Clone, Copy, Debug, PartialEq, Eq)]
pub struct Move {
    pub target: Location,
    pub source: Location,
}
