//! A meter that shows no progress.

use cfarm_options::{Ignored, Meter, Note};
use std::alloc::Global;

/// Counts how often it was told and cleared, and keeps the lines of files that were not used, and of the folder.
#[derive(Drop)]
pub struct Quiet {
    pub told: u64,
    pub cleared: u64,
    pub alloc: Global,
    pub ignored: Vec<u8>,
    pub noted: Vec<u8>,
    /// What was noted is told.
    pub has_ended: bool,
}

impl Meter for Quiet {
    fn found(&mut self, _old: usize, _nodes: usize) {}

    fn opened(&mut self) {}

    fn tell(&mut self, _agreed: usize, _rooms: usize, _linked: usize, _functions: usize) {
        self.told = self.told.saturating_add(1);
    }

    fn clear(&mut self) {
        self.cleared = self.cleared.saturating_add(1);
    }

    fn ignored(&mut self, told: Ignored<'_>) {
        if let Ok(line) = format!(in self.alloc; "{told}\n") {
            let _ = self.ignored.extend_from_slice(line.as_bytes());
        }
    }

    fn note(&mut self, told: Note) {
        if let Ok(line) = format!(in self.alloc; "{told}\n") {
            let _ = self.noted.extend_from_slice(line.as_bytes());
        }
    }

    fn ended(&mut self) {
        self.has_ended = true;
    }
}
