//! The memory of a thread, asked for at once.

use std::alloc::Global;

/// How many bytes a thread's memory is made to grow by.
const ROOM: usize = 16_777_216;

/// Gives a block back. It is no part of its caller, which would leave out both.
#[inline(never)]
fn give_back(block: Vec<u8>) {
    drop(block);
}

/// Takes a block of so many bytes and gives it back. Where there is no memory for it, nothing is done.
fn take_once(alloc: Global, bytes: usize) {
    if let Ok(block) = Vec::with_capacity(alloc, bytes) {
        give_back(block);
    }
}

/// Makes room for what this thread will allocate, and writes nothing there. The C library grows the memory of a thread by a page a call
/// of the system, and while one is at work the page faults of all threads wait; a large block that was given back is kept and used for
/// small ones. The first block only tells the library to keep blocks of its size, the second is kept.
pub fn grow_arena(alloc: Global) {
    take_once(alloc, ROOM);
    take_once(alloc, ROOM / 2);
}
