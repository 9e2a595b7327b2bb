//! What the words of a command line ask for, by the port of `clap`: the commands with their options and their help.
#![tactic(auto)]

mod build_words;
mod command_line;
mod fsck_words;
mod interpret_words;
mod native_words;
mod size_words;

pub use command_line::asked_for;
