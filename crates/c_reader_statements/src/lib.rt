//! Reading statements (C99 6.8): each reader gives what it read and the tokens behind it, or the first
//! fault from the front. Fuel bounds the height of what is read.
#![tactic(auto)]

mod first;
mod heads;
mod parts;
mod reading;
mod sets;
mod simple;

pub use c_reader_expressions::expression;
pub use reading::read_block;
