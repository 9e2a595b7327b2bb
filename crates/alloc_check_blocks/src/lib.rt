//! Blocks of LTL as the check of register allocation looks at them: what a block and the instruction
//! that it stands for define, where the words come from that its moves carry, and what an equation
//! behind it demands in front of it.
#![tactic(auto)]

mod demands;
mod origins;
mod pairs;
mod traced;

pub use origins::is_at;
pub use pairs::change_of;
pub use traced::TracedBlock;
