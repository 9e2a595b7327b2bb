//! The checker of functions of C: whether their bodies are well formed, and the actions that they stand for
//! (C99 6.8 and 6.9.1).
#![tactic(auto)]

mod changes;
mod here;
mod locals;
mod loops;
mod parts;
mod statements;

pub use here::Here;
pub use locals::declare_local;
pub use statements::{check_statements, leave};
