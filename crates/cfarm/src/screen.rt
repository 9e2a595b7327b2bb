//! Where a user sees how far a build is.

use cfarm_options::{Ignored, Meter, Note};
use std::io;
use std::io::{IsTerminal, Write};
use std::time::{Duration, Instant};

/// For how many milliseconds a line is shown at least.
const SHOWN: u64 = 100;

/// A line on standard error that is written again and again, ten times a second at most, where that is a terminal; else nothing is
/// written but the lines of files that were not used and of the folder. Above it stands a line that stays where journals were migrated. The terminal cuts each where it
/// ends. A line that cannot be written is left out.
#[derive(Drop)]
pub struct Screen<'a> {
    rt: &'a HostRuntime,
    is_shown: bool,
    /// When the line was written last.
    last: Option<Instant>,
    /// How many journals of the first version were found.
    old: usize,
    nodes: usize,
    /// What is to be told of the folder.
    notes: Vec<Note>,
}

impl<'a> Screen<'a> {
    /// The screen of the machine.
    pub fn over(rt: &'a HostRuntime) -> Screen<'a> {
        let is_shown = rt.stderr().is_terminal();
        Screen {
            rt,
            is_shown,
            last: None,
            old: 0,
            nodes: 0,
            notes: Vec::new(rt.alloc()),
        }
    }
}

impl Screen<'_> {
    /// Whether the line is to be written now.
    fn is_due(&mut self) -> bool {
        let Ok(now) = Instant::now(self.rt) else {
            return true;
        };
        let is_due = match self.last {
            Some(last) => now.duration_since(last) >= Duration::from_millis(SHOWN),
            None => true,
        };
        if is_due {
            self.last = Some(now);
        }
        is_due
    }
}

impl Meter for Screen<'_> {
    fn found(&mut self, old: usize, nodes: usize) {
        self.old = old;
        self.nodes = nodes;
    }

    fn opened(&mut self) {
        if self.is_shown && self.old > 0 {
            let (old, nodes) = (self.old, self.nodes);
            let standard_error = self.rt.stderr();
            let mut line = io::writer(&standard_error);
            let _ = write!(line, "migrated {old} of {nodes} journals\n");
            let _ = line.flush();
        }
    }

    fn tell(&mut self, agreed: usize, rooms: usize, linked: usize, functions: usize) {
        if self.is_shown && self.is_due() {
            let standard_error = self.rt.stderr();
            let mut line = io::writer(&standard_error);
            let _ = write!(
                line,
                "\r\x1b[?7lbuild: {agreed} of {rooms} rooms agreed, {linked} of {functions} functions linked\x1b[K\x1b[?7h"
            );
            let _ = line.flush();
        }
    }

    fn clear(&mut self) {
        if self.is_shown {
            let standard_error = self.rt.stderr();
            let mut line = io::writer(&standard_error);
            let _ = write!(line, "\r\x1b[K");
            let _ = line.flush();
        }
    }

    /// It is told where standard error is no terminal too.
    fn ignored(&mut self, told: Ignored<'_>) {
        let standard_error = self.rt.stderr();
        let mut line = io::writer(&standard_error);
        let _ = write!(line, "{told}\n");
        let _ = line.flush();
    }

    /// One for which there is no memory is left out.
    fn note(&mut self, told: Note) {
        let _ = self.notes.push(told);
    }

    /// They are told where standard error is no terminal too.
    fn ended(&mut self) {
        let standard_error = self.rt.stderr();
        let mut line = io::writer(&standard_error);
        for note in &self.notes {
            let _ = write!(line, "{note}\n");
        }
        let _ = line.flush();
    }
}
