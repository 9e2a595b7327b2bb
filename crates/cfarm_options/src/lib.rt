//! What a command is asked for, in types that the words of the command line and the commands share: the options of a build and its quorums, the files in
//! its folder, the forms that `emit` writes, where a user sees how far a build is, what it did not use, and
//! what is told of its folder.
#![tactic(auto)]

mod emitted;
mod holding;
mod ignored;
mod meter;
mod names;
mod note;
mod options;
mod paths;

pub use emitted::Emitted;
pub use holding::{holds_nothing, holds_records};
pub use ignored::Ignored;
pub use meter::Meter;
pub use names::is_taken;
pub use note::Note;
pub use options::{AskedSizes, BuildOptions, Nodes, Optimise};
pub use paths::{journal_path, linked_path, offer_path, old_journal_path};
