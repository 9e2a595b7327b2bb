//! The four rooms of one function: what there is once a pass, such as the seats of a node, and how rooms are numbered.
#![tactic(auto)]

mod oracles;
mod passes;
mod which;

pub use cse_check::Cse;
pub use farm_nodes_turn_offer::{Halt, Seat, WordSeat};
pub use oracles::{AllocationOf, ConstantsOf, ExpressionsOf, Oracles, OrderOf};
pub use passes::Passes;
pub use rooms_numbered::{
    Alloc, ConstProp, EquationLists, FunctionOffers, FunctionRoom, FunctionSeat, Linearize,
    NumberedSeat, Unopened, meet_numbered,
};
pub use which::Which;
