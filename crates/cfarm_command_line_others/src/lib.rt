//! The words of each command but `build`, `fsck`, `interpret` and `native`: its arguments and options, with their help, and what is found of them.
#![tactic(auto)]

mod bound_words;
mod emit_words;
mod explain_words;
mod joining;
mod judge_words;
mod log_words;
mod run_words;
mod settle_words;
mod show_words;
mod sim_words;
mod verify_words;

pub use bound_words::{bound_in, unbounded};
pub use emit_words::{emit, emit_seed_of, emitted_of};
pub use explain_words::{explain, explaining_of};
pub use joining::{FILE, file, needed, with_argument, with_command};
pub use judge_words::{judge, offer_of};
pub use log_words::list;
pub use run_words::{check, exec, expected_of, format_of, limit_of};
pub use settle_words::settle;
pub use show_words::show;
pub use sim_words::{showing_of, sim};
pub use verify_words::{paths_of, verify};
