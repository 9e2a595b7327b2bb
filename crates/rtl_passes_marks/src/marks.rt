//! What feeds each node, by one walk over the instructions.

ghost use Rattle.std.specs.Prelude.{◌≡◌, ◌<◌, ◌^◌, length, replicate, IfOk};
ghost use Rattle.rtl_passes_marks.specs.Edges.{edges_of};
ghost use Rattle.rtl_passes_marks.specs.Marks.{AreFeeders};
ghost use Rattle.rtl_passes_marks.specs.Tables.{all_noted, walked, feeder_by, feeders_from};
ghost use Rattle.rtl_passes_marks.specs.Tables.{once_more as once_more_by, noted as noted_by};
ghost use Rattle.rtl_passes_marks.specs.declared.marks.Came.TheVariants.{Never};

use lang_base::NoMemory;
use rtl_passes::{Function, Instruction};
use std::alloc::Global;

/// From where edges come to a node.
#[derive(Clone, Copy)]
pub enum Came {
    Never,
    Once(u16),
    Often,
}

/// No edge came to any of so many nodes.
fn fresh(alloc: Global, nodes: usize) -> Result<Vec<Came>, NoMemory>
    ensures { IfOk result (λ table. table.items ≡ replicate nodes Never) }
{
    let mut table = Vec::with_capacity(alloc, nodes)?;
    for _ in 0..nodes {
        table.push(Came::Never)?;
    }
    Ok(table)
}

fn once_more(came: Came, from: u16) -> Came
    ensures { result ≡ once_more_by came from }
{
    match came {
        Came::Never => Came::Once(from),
        _ => Came::Often,
    }
}

/// Notes the edge; one to a node that is not there is left out.
fn note(table: &mut [Came], from: u16, to: u16)
    ensures { table.new ≡ noted_by from to table.old }
{
    let place = usize::from(to);
    if place < table.len() {
        table[place] = once_more(table[place], from);
    }
}

fn note_all(table: &mut [Came], from: u16, instruction: &Instruction)
    ensures { table.new ≡ all_noted from (edges_of instruction.now) table.old }
{
    match instruction {
        Instruction::Do { successor, .. } | Instruction::Call { successor, .. } => {
            note(table, from, *successor);
        }
        Instruction::Branch { taken, other, .. } => {
            note(table, from, *taken);
            note(table, from, *other);
        }
        Instruction::Return { .. } => {}
    }
}

/// Notes the edges of the instructions.
fn walk(table: &mut [Came], nodes: &[Instruction])
    requires { length nodes.now < 2 ^ 16 }
    ensures { table.new ≡ walked 0 nodes.now table.old }
{
    for (n, instruction) in nodes.iter().enumerate() {
        note_all(table, n as u16, instruction);
    }
}

/// What feeds the node where its edges came so.
fn feeder_from(entry: u16, node: usize, came: Came) -> Option<u16>
    ensures { result ≡ feeder_by entry node came }
{
    if node == usize::from(entry) {
        return None;
    }
    match came {
        Came::Once(from) if usize::from(from) < node => Some(from),
        _ => None,
    }
}

fn read_off(alloc: Global, entry: u16, table: &[Came]) -> Result<Vec<Option<u16>>, NoMemory>
    ensures { IfOk result (λ feeders. feeders.items ≡ feeders_from entry 0 table.now) }
{
    let mut feeders = Vec::with_capacity(alloc, table.len())?;
    for (node, came) in table.iter().enumerate() {
        feeders.push(feeder_from(entry, node, *came))?;
    }
    Ok(feeders)
}

/// From where edges come to each of the nodes.
fn table_of(alloc: Global, nodes: &[Instruction]) -> Result<Vec<Came>, NoMemory>
    requires { length nodes.now < 2 ^ 16 }
    ensures { IfOk result (λ table. table.items ≡ walked 0 nodes.now (replicate (length nodes.now) Never)) }
{
    let mut table = fresh(alloc, nodes.len())?;
    walk(&mut table, nodes);
    Ok(table)
}

/// What feeds each node of the function; takes time and memory linear in the nodes.
pub fn feeders_of(alloc: Global, input: &Function) -> Result<Vec<Option<u16>>, NoMemory>
    ensures { IfOk result (λ feeders. AreFeeders input.now.entry input.now.nodes feeders.items) }
{
    let nodes = input.nodes().as_slice();
    let table = table_of(alloc, nodes)?;
    read_off(alloc, input.entry(), &table)
}
