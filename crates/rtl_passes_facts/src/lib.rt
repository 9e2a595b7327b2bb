//! Passes from RTL to RTL that go by facts of each node, over the rules of any such pass: how rows of
//! facts at marked nodes are read and written, what is known at the other nodes, and whether each node keeps the rules.
#![tactic(auto)]

mod base;
mod carry;
mod edges;
mod entries;
mod nodes;
mod order;
mod reading;
mod rules;
mod verdict;
mod walk;
mod writing;

pub use base::unchanged;
pub use edges::Edges;
pub use reading::read_certificate;
pub use rtl_passes_filled::list_at;
pub use rtl_passes_marks::{
    Act, Arguments, Function, Instruction, NodeRow, Register, Rtl, entries_of, is_same,
};
pub use rules::Rules;
pub use verdict::{check, why};
pub use writing::write_certificate;
