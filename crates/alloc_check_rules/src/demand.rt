use crate::equation::Equation;

/// What must hold before an instruction, so that an equation holds behind it.
#[derive(Clone, Copy)]
pub enum Demand {
    /// Nothing.
    Met,
    /// Nothing that could hold is enough.
    Refused,
    Needs(Equation),
}
