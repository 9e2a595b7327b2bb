//! The written form of whole programs, over any language: the globals, and the functions by name.
//! Each program has one spelling; reading and writing are exact.
#![tactic(auto)]

mod functions;
mod globals;
mod head;
mod laws;
mod names;
mod programs;
mod writing;

pub use lang_base::{
    FormError, Global, Language, Named, NoMemory, Oracle, Pass, PassError, Program, Row, Shown,
};
pub use laws::one_program;
pub use names::is_name;
pub use programs::{read_program, write_program};
