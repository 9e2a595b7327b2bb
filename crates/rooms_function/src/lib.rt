//! A function's rooms: one for each of the four passes, whose words stand in one table. A node holds one seat for all four; each
//! call names the pass. Two seats of one function meet in all four rooms in turn.
#![tactic(auto)]

mod calls;
mod meeting;
mod offered;
mod opening;
mod seat;
mod words;

pub use alloc_check::{Alloc, EquationLists};
pub use constprop_check::{ConstProp, FactLists};
pub use linearize_check::{Function, Linearize, Order};
pub use meeting::{FunctionMeeting, meet_functions};
pub use offered::{ChainOffer, SeenOffer};
pub use opening::{FunctionOffers, FunctionRoom, Unopened};
pub use seat::FunctionSeat;
