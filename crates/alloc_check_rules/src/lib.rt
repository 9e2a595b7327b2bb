//! Register allocation as equations between registers of RTL and locations of LTL: when a block does
//! what an instruction does, what its equations demand of the node before, and the rules by which an
//! output and equations are accepted. Each part of the rules is enough for what it is to show, as the
//! calls in `law` say.
#![tactic(auto)]

mod change;
mod demand;
mod equation;
mod law;

pub use change::Change;
pub use demand::Demand;
pub use equation::Equation;
pub use ints::Op;
pub use law::{
    acts_agree, calls_keep, demands_suffice, entries_hold, order_is_of_bytes, origins_hold,
    tests_agree,
};
pub use ltl::{Block, Body};
pub use rtl_passes::{Act, Arguments, Instruction, Register, Test};
