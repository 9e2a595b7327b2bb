//! The journal of one node on a disk. A record is acknowledged once its gate is open on the disk, and the gate is
//! opened by a write of its own once the record is there. So a crash at any moment leaves a journal of what was
//! acknowledged, in order, with the record that was being written or without it. Of records that are put down at once, behind
//! one gate, it leaves all or none.
#![tactic(auto)]

mod device;
mod laws;
mod log;
mod opening;

pub use acceptor_log_form::{
    HEADER_SIZE, Header, LogError, Record, header_bytes, journal_bytes, no_fault, one_list,
    read_between, record_bytes, text_stands, with_or_without,
};
pub use acceptor_log_reading::{Listed, begins_with, behind_open, read, read_first};
pub use acceptor_log_writing::{either_between, text_grows};
pub use laws::{at_rest, behind_call, file_survives};
pub use log::{Log, MOST_BYTES};
