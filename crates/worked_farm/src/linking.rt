//! What all nodes of a farm link.

ghost use Rattle.std.specs.Prelude.{◌≡◌, ◌<◌, length, IfSome};
ghost use Rattle.c_checker_rules.specs.Checked.{program_tree};
ghost use Rattle.cminor_program_ranges.specs.Names.{HaveNames};
ghost use Rattle.lang.specs.Form.{IsProgram};
ghost use Rattle.linear_language.specs.Function.{IsFunction};

use durable_pair_memory::MemoryPair;
use farm_nodes::{FarmNode, Optimisers, Source, linked, meet_nodes};
use lang::write_program;
use lang_base::{Program, Shown};
use linear::run;
use linear_language::{Function, Linear};
use rand_pcg::Pcg32;
use rooms_hall::Naming;
use std::alloc::Global;
use worked_row_files::fine;

/// More instructions than any of the programs does.
const LIMIT: u64 = 1_000_000_000;

/// How many calls and bytes a disk can note.
const CALLS: usize = 20_000;

const BYTES: usize = 2_000_000;

/// A node of these farms.
pub(crate) type Node<H> = FarmNode<MemoryPair, Optimisers, H>;

/// An empty disk.
pub(crate) fn empty_disk(alloc: Global) -> Option<MemoryPair> {
    MemoryPair::new(alloc, CALLS, BYTES).ok()
}

/// Empty disks for so many nodes.
pub(crate) fn disks_of(alloc: Global, nodes: usize) -> Option<Vec<MemoryPair>>
    ensures { IfSome result (λ disks. length disks.items ≡ nodes) }
{
    let mut disks = Vec::new(alloc);
    for _node in 0..nodes {
        let Some(disk) = empty_disk(alloc) else {
            return None;
        };
        if disks.push(disk).is_err() {
            return None;
        }
    }
    Some(disks)
}

/// What a crash leaves of the disks of all nodes.
pub(crate) fn crashed_of<O, H: Naming>(
    alloc: Global,
    nodes: &[FarmNode<MemoryPair, O, H>],
    seed: u64,
) -> Option<Vec<MemoryPair>> {
    let mut words = Pcg32::new(seed, 0);
    let mut disks = Vec::new(alloc);
    for node in nodes {
        let Ok(disk) = node.disk().crash(alloc, &mut words) else {
            return None;
        };
        if disks.push(disk).is_err() {
            return None;
        }
    }
    Some(disks)
}

/// Whether the nodes meet and both link each function.
fn both_link<H: Naming>(first: &mut Node<H>, second: &mut Node<H>) -> bool {
    let functions = first.seats.len();
    functions <= 64 && usize::from(meet_nodes(first, second)) == functions
}

/// Whether each node meets the next, and both link each function.
pub(crate) fn all_meet<H: Naming>(nodes: &mut [Node<H>]) -> bool {
    let mut alike = true;
    for number in 1..nodes.len() {
        let (front, back) = nodes.split_at_mut(number);
        let both = both_link(&mut front[number - 1], &mut back[0]);
        alike = alike && both;
    }
    alike
}

/// The bytes of the program that the node links.
fn bytes_linked<H: Naming>(alloc: Global, source: &Source, node: &Node<H>) -> Option<Vec<u8>>
    requires { HaveNames (program_tree source.now.program) }
{
    match linked(node, &source.program) {
        Ok(program) => written(alloc, &program),
        Err(_) => None,
    }
}

/// The bytes of a program.
fn written(alloc: Global, program: &Program<Function>) -> Option<Vec<u8>>
    requires { IsProgram IsFunction program.now }
{
    let mut bytes = Vec::new(alloc);
    match write_program::<Linear>(program, &mut bytes) {
        Ok(()) => Some(bytes),
        Err(_) => None,
    }
}

/// Whether all nodes link one program.
pub(crate) fn all_alike<H: Naming>(alloc: Global, source: &Source, nodes: &[Node<H>]) -> bool
    requires some { 0 < length nodes.now }
    requires names { HaveNames (program_tree source.now.program) }
{
    let Some(first) = bytes_linked(alloc, source, &nodes[0]) else {
        return false;
    };
    for node in nodes {
        let Some(bytes) = bytes_linked(alloc, source, node) else {
            return false;
        };
        if first.as_slice() != bytes.as_slice() {
            return false;
        }
    }
    true
}

/// The bytes of the program that all nodes link, each of which meets the next; none where two do not meet in all functions, or link other programs.
pub(crate) fn all_linked<H: Naming>(
    alloc: Global,
    source: &Source,
    nodes: &mut [Node<H>],
) -> Option<Vec<u8>>
    requires { HaveNames (program_tree source.now.program) }
{
    if nodes.is_empty() || !all_meet(nodes) || !all_alike(alloc, source, nodes) {
        return None;
    }
    bytes_linked(alloc, source, &nodes[0])
}

/// What the first node links that links anything; no bytes where none does.
pub(crate) fn first_linked<H: Naming>(alloc: Global, source: &Source, nodes: &[Node<H>]) -> Vec<u8>
    requires { HaveNames (program_tree source.now.program) }
{
    for node in nodes {
        if let Some(bytes) = bytes_linked(alloc, source, node) {
            return bytes;
        }
    }
    Vec::new(alloc)
}

/// What the program that the node links prints, in hex, and how its run stands.
pub(crate) fn ran<H: Naming>(alloc: Global, source: &Source, node: &Node<H>) -> Option<String> {
    match linked(node, &source.program) {
        Ok(program) => shown(alloc, &program),
        Err(_) => None,
    }
}

/// What a program prints, in hex, `-` for nothing, and how its run stands.
fn shown(alloc: Global, program: &Program<Function>) -> Option<String> {
    let mut output = Vec::new(alloc);
    let shown = fine!(run(alloc, program, LIMIT, &mut output));
    let closing = closing_of(shown);
    if output.is_empty() {
        return format!(in alloc; "- {closing} {}", result_of(shown)).ok();
    }
    let text = fine!(hex::encode(alloc, &output));
    format!(in alloc; "{text} {closing} {}", result_of(shown)).ok()
}

/// How a run stands.
fn closing_of(shown: Shown) -> &'static str {
    match shown {
        Shown::Running => "running",
        Shown::Ended(_) => "ended",
        Shown::Wrong => "wrong",
    }
}

/// The result of a run that has ended.
fn result_of(shown: Shown) -> u32 {
    match shown {
        Shown::Ended(result) => result,
        Shown::Running | Shown::Wrong => 0,
    }
}
