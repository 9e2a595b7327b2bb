//! What every language and pass needs and none is of. Lists are read, written and copied by one loop each, a function's
//! spelling is read at a front of bytes and written whole, and a graph's front is read.
//!
//! Owned values are kept while more is made: an early exit drops each owned value that is live there, and the drop of an
//! enum is written out at each exit; held as a value of a type parameter, it is dropped by one call. So what was made goes
//! beside what is made behind it, in a call of its own.
//!
//! Of whole programs: functions found by name, copies of globals, what a writer's answer means, how one byte is printed,
//! and why a run is broken off. For proofs: graphs as forms, equalities that tell values apart, and machines that go on
//! printing. Of threads: memory asked for at once.
#![tactic(auto)]

mod answers;
mod arena;
mod boxing;
mod bytes;
mod copying;
mod error;
mod exits;
mod form;
mod graph;
mod keeping;
mod many;
mod names;
mod numbers;
mod printing;

pub use answers::{Answer, meaning};
pub use arena::grow_arena;
pub use boxing::{boxes, pair};
pub use bytes::are_bytes;
pub use copying::{CopyOne, copy_each, copy_globals};
pub use error::RunError;
pub use form::{Form, read_front, write_whole};
pub use graph::{read_ends, read_node};
pub use keeping::{beside, both};
pub use lang_base::{
    FormError, NoMemory, Row, push_byte, push_u16, read_byte, read_count, read_u16, read_u16_below,
};
pub use many::{Byte, Half, ReadOne, Word, WriteOne, push_each, read_so_many};
pub use names::is_taken;
pub use numbers::{read_function_number, read_global};
pub use printing::print;
