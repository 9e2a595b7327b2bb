//! The lowering of checked C programs to Cminor, as a definition on trees, and that it keeps their meaning. What is true
//! of each function in memory, so that what is lowered from it is in range.
#![tactic(auto)]

mod held;
mod law;
mod words;

pub use held::function_held;
pub use law::lowered_keeps;
