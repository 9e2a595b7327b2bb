//! What the bytes of a node's journal stand for: a header that names the node, the sizes of quorums and the source, then
//! records, each behind a gate that counts only where it is open, up to a closed gate. Writing is exact, each header and
//! each list of records has one text, and what the records leave of each room, with the order that they keep there, is
//! defined and tested.
#![tactic(auto)]

mod errors;
mod header;
mod laws;
mod record;
mod rooms;
mod writing;

pub use errors::LogError;
pub use header::{HEADER_SIZE, Header};
pub use laws::{
    no_fault, one_fault, one_header, one_list, other_header, read_between, text_stands,
    with_or_without,
};
pub use record::Record;
pub use rooms::{kept_parts, kept_parts_of};
pub use writing::{header_bytes, journal_bytes, record_bytes, write_record};
