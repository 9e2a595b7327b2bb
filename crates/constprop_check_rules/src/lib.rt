//! Constants carried along a graph of RTL: facts of each node, what is known behind an instruction
//! where they hold, the rules by which an output and facts are accepted, and that what is accepted
//! keeps the meaning of whole programs.
#![tactic(auto)]

mod fact;
mod known;
mod law;

pub use fact::Fact;
pub use known::{
    act_target, act_value, apply, decision, fold, holds, known_result, value, word_of, written,
};
pub use law::propagated_keeps;
pub use rtl_passes_filled::{Act, Register, Test};
