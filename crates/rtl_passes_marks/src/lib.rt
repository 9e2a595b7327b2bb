//! Which nodes of a function of RTL are marked, and certificates that have rows at marked nodes alone: what is known at
//! the other nodes a check tells from the one node that leads there. Rows are read and written with one spelling each,
//! and it is told whether they have their form; what they say of each node is borrowed from them, and
//! the lists of the other nodes are handed on from node to node.
#![tactic(auto)]

mod entries;
mod form;
mod handing;
mod marks;
mod reading;
mod row;
mod said;
mod writing;

pub use entries::Entries;
pub use form::are_rows;
pub use handing::{feeds_any, hand_on, is_fed, take};
pub use lang_base::Row;
pub use marks::{Came, feeders_of};
pub use reading::read_rows;
pub use row::{NodeRow, entries_of};
pub use rtl_passes::{
    Act, Arguments, Function, Instruction, Register, Rtl, Test, empty_lists, has_same_shape,
    is_same, with_nodes,
};
pub use said::Said;
pub use writing::write_rows;
