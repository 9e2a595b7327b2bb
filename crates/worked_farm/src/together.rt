//! Two turns at the same time.

use crate::linking::{all_linked, disks_of};
use crate::turning::{TURNS, open_three};
use farm_nodes::{Farm, Optimising, optimisers_of, run_threads};
use parallel_validate::Gate;
use rooms_hall::{Hall, Naming};
use std::alloc::Global;
use std::sync::Wait;
use std::sync::atomic::{AtomicBool, Ordering};
use std::thread::{self, Threads};
use worked_row_files::owned;

/// How often a turn looks for the beginning or the end of another.
const LOOKS: u32 = 1_000_000;

/// Holds the first turn of node 0 until a turn of node 1 ends that begins behind it, as long as the looks last.
#[derive(Drop)]
struct Meeting {
    held: AtomicBool,
    ended: AtomicBool,
    met: AtomicBool,
}

/// Looks until it is set; false where the looks are used up.
fn is_seen(flag: &AtomicBool) -> bool {
    for _ in 0..LOOKS {
        if flag.load(Ordering::SeqCst) {
            return true;
        }
        thread::yield_now();
    }
    false
}

impl Gate for Meeting {
    fn before(&self, node: usize) {
        let held = self.held.load(Ordering::SeqCst);
        if node == 0 && !held {
            self.held.store(true, Ordering::SeqCst);
            if is_seen(&self.ended) {
                self.met.store(true, Ordering::SeqCst);
            }
        }
        if node == 1 && !held {
            let _began = is_seen(&self.held);
        }
    }

    fn after(&self, node: usize) {
        if node == 1 && self.held.load(Ordering::SeqCst) {
            self.ended.store(true, Ordering::SeqCst);
        }
    }
}

/// Whether two nodes take turns at the same time, and all link one program.
pub(crate) fn together_told<H: Naming + Send, R: Threads + Wait + Sync>(
    threads: &R,
    alloc: Global,
    hall: &Hall<H>,
    text: &[u8],
) -> Option<String> {
    let Some(disks) = disks_of(alloc, 3) else {
        return None;
    };
    let Ok(oracles) = optimisers_of(alloc, 3, Optimising::Drawn) else {
        return None;
    };
    let Ok(farm) = open_three(threads, alloc, hall, text, disks, oracles, 1) else {
        return None;
    };
    let meeting = Meeting {
        held: AtomicBool::new(false),
        ended: AtomicBool::new(false),
        met: AtomicBool::new(false),
    };
    let Farm { source, nodes } = farm;
    let Ok(mut nodes) = run_threads(threads, alloc, nodes, TURNS, 2, &meeting) else {
        return None;
    };
    if all_linked(alloc, &source, &mut nodes).is_none() {
        return None;
    }
    if meeting.met.load(Ordering::SeqCst) {
        return owned(alloc, "met");
    }
    owned(alloc, "one after the other")
}
