//! A header of C for what a library exports: a prototype of each function under its prefix, as `native_text_doors` has the doorways.
#![tactic(auto)]

mod header;

pub use header::push_header;
