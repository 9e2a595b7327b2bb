//! Slots for the classes that got no register: two share one where all nodes of one stand below those of the other.

use crate::lists::Lists;
use lang_base::NoMemory;
use locations::Location;
use oracle_graphs::Assignment;
use std::alloc::Global;

/// The lowest and the highest node of a list.
fn bounds_of(lives: &Lists, class: u16) -> (u16, u16) {
    let (mut lowest, mut highest) = (u16::MAX, 0);
    let mut next = lives.first(class);
    for _ in 0..u64::MAX {
        let Some(at) = next else {
            break;
        };
        let (node, behind) = lives.at(at);
        next = behind;
        lowest = lowest.min(node);
        highest = highest.max(node);
    }
    (lowest, highest)
}

/// Where classes begin and end, in order: each a number whose low half is the class, and whose next bit says that it ends.
fn events_of(alloc: Global, lives: &Lists, classes: &[u16]) -> Result<Vec<u64>, NoMemory> {
    let mut events = Vec::new(alloc);
    for class in classes {
        let (lowest, highest) = bounds_of(lives, *class);
        events.push((u64::from(lowest) << 17) | u64::from(*class))?;
        events.push((u64::from(highest) << 17) | 65_536 | u64::from(*class))?;
    }
    events.as_mut_slice().sort_unstable();
    Ok(events)
}

/// Gives each of the classes a slot; says whether there were enough.
pub(crate) fn give_slots(
    alloc: Global,
    lives: &Lists,
    classes: &[u16],
    assignment: &mut Assignment,
) -> Result<bool, NoMemory> {
    let mut free: Vec<Location> = Vec::new(alloc);
    for event in &events_of(alloc, lives, classes)? {
        let class = (*event & 0xffff) as u16;
        if *event & 65_536 != 0 {
            free.push(assignment.location_of(class))?;
        } else if let Some(location) = free.pop() {
            assignment.give(class, location);
        } else if !assignment.give_slot(class) {
            return Ok(false);
        }
    }
    Ok(true)
}
