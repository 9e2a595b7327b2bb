//! Laying out code: the code of a function's blocks in an order, which nodes are reached, and the
//! order that lists them rising. The layout of a function in range is a function in range.
#![tactic(auto)]

mod function;
mod layout;
mod listing;
mod reach;

pub use function::lay_out_function;
pub use layout::{block_at, lay_out, push_stretch};
pub use listing::rising;
pub use locations::{Half, Location, ReadOne, push_each, read_so_many};
pub use reach::reachable;
