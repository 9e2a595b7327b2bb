//! The command `fsck` over files: a text is made ready, the folder's lock is taken, the files of each node's journals are read, and what is found
//! is told. No file is put, and none is made but that of the lock.
#![tactic(auto)]

mod looking;
mod lost;
mod reading;
mod unchained;
mod unread;

pub use looking::look_through;
