//! Reading tokens: faults, and the readers of one token, from which all others are made. The specs
//! say what is read of which tokens; the laws in `proofs/` tie that to the grammar.
#![tactic(auto)]

mod assigning;
mod fault;
mod peeking;
mod reading;

pub use assigning::{is_step_next, read_assign_operator, read_step_operator};
pub use fault::Fault;
pub use peeking::{is_call_next, is_name_next, is_sign_next, is_type_next, is_word_next};
pub use reading::{
    misfit, read_constant, read_name, read_placed_word, read_sign, read_type, read_word,
};
