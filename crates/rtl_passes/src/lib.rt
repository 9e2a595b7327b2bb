//! What passes from RTL to RTL share that change instructions by facts of each node: when two
//! functions differ in their instructions alone, and that such a pass keeps the meaning of whole
//! programs where each node is matched wherever its facts hold.
#![tactic(auto)]

mod empty;
mod nodes;
mod same;
mod shape;

pub use empty::empty_lists;
pub use nodes::with_nodes;
pub use rtl_language::{
    Act, Arguments, Function, Instruction, ReadOne, Register, Rtl, Test, WriteOne, push_each,
    read_so_many,
};
pub use same::is_same;
pub use shape::has_same_shape;
