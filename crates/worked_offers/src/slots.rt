//! How many blocks of an allocation touch slots.

use crate::drawing::{drawing_of, drawn_input};
use crate::kinds::{Kind, proposed};
use crate::passes::function_of;
use alloc_check::baseline;
use locations::{Location, Move};
use ltl::{Block, Body, Function, Ltl};
use rtl_language::Rtl;
use std::alloc::Global;
use worked_row_files::{fine, owned, some};

fn is_slot(location: &Location) -> bool {
    matches!(location, Location::InSlot(_))
}

/// Whether one of the locations is a slot.
fn has_slot(locations: &[Location]) -> bool {
    for location in locations {
        if is_slot(location) {
            return true;
        }
    }
    false
}

/// Whether one of the moves is from a slot or to one.
fn moves_slot(steps: &[Move]) -> bool {
    for step in steps {
        if is_slot(&step.target) || is_slot(&step.source) {
            return true;
        }
    }
    false
}

fn touches(block: &Block) -> bool {
    let touches = match &block.body {
        Body::Go { after, .. } => moves_slot(after.as_slice()),
        Body::Call {
            arguments,
            target,
            ..
        } => has_slot(arguments.as_slice()) || matches!(target, Some(Location::InSlot(_))),
        Body::Branch { .. } | Body::Return { .. } => false,
    };
    touches || moves_slot(block.before.as_slice())
}

/// How many of the blocks move a word from a slot or to one, or call with one.
fn touching(function: &Function) -> u64 {
    let mut count = 0u64;
    for block in function.blocks().as_slice() {
        if touches(block) {
            count = count.saturating_add(1);
        }
    }
    count
}

/// How many blocks touch slots: of the proposal for a function, if it is accepted, and of the baseline.
fn touching_both(alloc: Global, input: &[u8], seed: u64) -> Option<(u64, u64)> {
    let function = some!(function_of::<Rtl>(alloc, input));
    let (theirs, _equations) = fine!(baseline(alloc, &function));
    let ours = some!(proposed(alloc, Kind::Allocations, input, seed));
    let ours = some!(function_of::<Ltl>(alloc, &ours));
    Some((touching(&ours), touching(&theirs)))
}

/// Whether the proposals for all functions that are drawn are accepted, and fewer than a third as many of their blocks
/// touch slots as of the baselines'.
pub fn slots_told(alloc: Global, question: &str) -> Option<String> {
    let words: Vec<&str> = fine!(question.split(' ').collect(alloc));
    let drawing = some!(drawing_of(words.as_slice()));
    let mut ours = 0u64;
    let mut theirs = 0u64;
    for seed in 1..=drawing.count {
        let input = some!(drawn_input(alloc, drawing, seed));
        let (touched, simplest) = some!(touching_both(alloc, &input, seed));
        ours = ours.saturating_add(touched);
        theirs = theirs.saturating_add(simplest);
    }
    let is_few = ours.saturating_mul(3) < theirs;
    owned(alloc, if is_few { "accepted, few" } else { "accepted" })
}
