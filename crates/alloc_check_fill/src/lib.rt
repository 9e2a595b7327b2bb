//! Equations at nodes for which a certificate has no row: what each block needs before it, carried back
//! through the block from where it goes on.
#![tactic(auto)]

mod needed;
mod order;
mod uses;

pub use alloc_check_blocks::is_at;
pub use alloc_check_rules::{Equation, Register};
pub use needed::needed_before;
pub use order::{is_same, rank, tidy};
pub use uses::pair_at;
