//! High and long functions of Cminor.

use std::alloc::Global;
use worked_row_files::fine;

/// A skip in so many blocks.
pub fn blocks(alloc: Global, count: &str) -> Option<Vec<u8>> {
    let count: u32 = fine!(count.parse());
    let mut bytes = fine!(Vec::from_slice(alloc, &[1, 0, 0, 0]));
    for _ in 0..count {
        fine!(bytes.push(8));
    }
    fine!(bytes.push(0));
    Some(bytes)
}

/// A sequence of so many skips.
pub fn skips(alloc: Global, count: &str) -> Option<Vec<u8>> {
    let count: u32 = fine!(count.parse());
    let mut bytes = fine!(Vec::from_slice(alloc, &[1, 0, 0, 0, 5]));
    fine!(bytes.extend_from_slice(&count.to_be_bytes()));
    for _ in 0..count {
        fine!(bytes.push(0));
    }
    Some(bytes)
}
