//! What a pair of disks over two files keeps beside them: one copy of what each must hold, and what was done to it since it was
//! opened, so that what a crash at any past moment might have left of both is known.
#![tactic(auto)]

mod held;
mod noted;

pub use held::Held;
pub use noted::{Noted, Step};
