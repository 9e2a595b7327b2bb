//! The commands that look at files, each with what it tells: `show`, `log`, `verify`, `emit` and `judge`.
#![tactic(auto)]

mod emitting;
mod judging;
mod listing;
mod showing;
mod verifying;
mod vouching;

pub use emitting::emit_form;
pub use judging::judge_offer;
pub use listing::list_records;
pub use showing::show_text;
pub use verifying::verify_files;
