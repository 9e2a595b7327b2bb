use crate::register::Register;

/// The registers that an operator or a condition takes.
#[derive(Clone, Copy, Debug, PartialEq, Eq)]
pub enum Arguments {
    One(Register),
    Two(Register, Register),
}
