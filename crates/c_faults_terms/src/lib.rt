//! The parts of terms and actions that stand for those of a text, and the places of a term's.
#![tactic(auto)]

mod shapes;
mod terms;

pub use shapes::{
    all_of, arguments_of, condition_of, else_of, given_of, index_of, plain_of, stored_of, then_of,
};
pub use terms::{add_same, add_term, first, second};
