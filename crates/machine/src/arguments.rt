use locations::Register;

/// The registers that an operator or a condition takes.
#[derive(Clone, Copy, PartialEq, Eq)]
pub enum Arguments {
    One(Register),
    Two(Register, Register),
}
