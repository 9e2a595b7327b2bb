//! The text of native code: GNU assembly of x86-64 Linux, AT&T syntax, one instruction a line, which `gcc x.s` makes a program of. What
//! runs and is proved is the code of the functions; the fixed text round it (`native_text_doors`) is trusted.
#![tactic(auto)]

mod data;
mod doorways;
mod here;
mod lines;
mod operand;
mod shapes;
mod whole;
mod words;

pub use doorways::Doorways;
pub use whole::push_native;
