//! Lists of nodes while they are handed on.

ghost use Rattle.std.specs.Prelude.{◌≡◌, ◌<◌, [], length, slice_get, slice_set, slice_index_or, IsTrue, IfOk, OnOk};
ghost use Rattle.rtl_passes_marks.specs.Edges.{edges_of};
ghost use Rattle.rtl_passes_marks.specs.Handing.{is_fed_by, feeds_by, feeds_one, handed_to, handed_on as handed};

use lang_base::{NoMemory, Row};
use rtl_passes::Instruction;
use std::alloc::Global;
use std::mem;

/// Puts the list at a node, if that is there.
fn put<T: Drop>(lists: &mut [Row<T>], node: u16, facts: Row<T>)
    ensures { lists.new ≡ slice_set lists.old node facts }
{
    let place = usize::from(node);
    if place < lists.len() {
        lists[place] = facts;
    }
}

/// Whether the node is fed, so that its list is handed to it.
pub fn is_fed(feeders: &[Option<u16>], n: usize) -> bool
    ensures { result ≡ is_fed_by (slice_get feeders.now n) }
{
    match feeders.get(n) {
        Some(Some(_)) => true,
        _ => false,
    }
}

/// The list that was handed to a node, which is left with none.
pub fn take<T: Drop>(alloc: Global, lists: &mut [Row<T>], n: usize) -> Vec<T>
    requires { n < length lists.old }
    ensures list { result.items ≡ slice_index_or lists.old n [] }
    ensures left { lists.new ≡ slice_set lists.old n [] }
{
    mem::replace(&mut lists[n], Row::from_vec(Vec::new(alloc))).into_vec()
}

/// Whether this node feeds the other.
fn feeds(feeders: &[Option<u16>], n: u16, other: u16) -> bool
    ensures { result ≡ feeds_by (slice_get feeders.now other) n }
{
    match feeders.get(usize::from(other)) {
        Some(Some(feeder)) => *feeder == n,
        _ => false,
    }
}

/// Whether this node feeds one of those where the instruction goes on.
pub fn feeds_any(feeders: &[Option<u16>], n: u16, instruction: &Instruction) -> bool
    ensures { result ≡ feeds_one feeders.now n (edges_of instruction.now) }
{
    match instruction {
        Instruction::Do { successor, .. } | Instruction::Call { successor, .. } => {
            feeds(feeders, n, *successor)
        }
        Instruction::Branch { taken, other, .. } => {
            feeds(feeders, n, *taken) || feeds(feeders, n, *other)
        }
        Instruction::Return { .. } => false,
    }
}

/// Hands the list to the other node if that is fed by this one.
fn hand_to<T: Drop>(
    feeders: &[Option<u16>],
    lists: &mut [Row<T>],
    n: u16,
    other: u16,
    facts: Row<T>,
)
    ensures { lists.new ≡ handed_to feeders.now n other facts lists.old }
{
    if feeds(feeders, n, other) {
        put(lists, other, facts);
    }
}

/// A copy where one is wanted.
fn copied_if<T: Copy>(alloc: Global, wanted: bool, facts: &Row<T>) -> Result<Row<T>, NoMemory>
    ensures { IfOk result (λ copy. IsTrue wanted → copy ≡ facts.now) }
{
    if wanted {
        facts.copied(alloc)
    } else {
        Ok(Row::from_vec(Vec::new(alloc)))
    }
}

/// Hands the list on along the edges of the instruction, to the nodes that this one feeds; it is copied only where that
/// are two.
pub fn hand_on<T: Copy + Drop>(
    alloc: Global,
    feeders: &[Option<u16>],
    lists: &mut [Row<T>],
    n: u16,
    instruction: &Instruction,
    facts: Row<T>,
) -> Result<(), NoMemory>
    ensures { OnOk result (lists.new ≡ handed feeders.now n (edges_of instruction.now) facts lists.old) }
{
    match instruction {
        Instruction::Do { successor, .. } | Instruction::Call { successor, .. } => {
            hand_to(feeders, lists, n, *successor, facts);
        }
        Instruction::Branch { taken, other, .. } => {
            if feeds(feeders, n, *other) {
                let copy = copied_if(alloc, feeds(feeders, n, *taken), &facts)?;
                hand_to(feeders, lists, n, *taken, copy);
                hand_to(feeders, lists, n, *other, facts);
            } else {
                hand_to(feeders, lists, n, *taken, facts);
            }
        }
        Instruction::Return { .. } => {}
    }
    Ok(())
}
