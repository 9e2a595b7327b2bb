//! A node's seats in the four rooms of a function, whose table was opened with a number that was drawn from a hall. Those of two nodes
//! meet without anybody's knowing whether they are of one function: strangers are told, and only of two functions, since one table has
//! one number.
#![tactic(auto)]

mod meeting;
mod seat;

pub use meeting::meet_numbered;
pub use rooms_function::{
    Alloc, ConstProp, EquationLists, FactLists, Function, FunctionOffers, FunctionRoom,
    FunctionSeat, Linearize, Order, Unopened,
};
pub use seat::NumberedSeat;
