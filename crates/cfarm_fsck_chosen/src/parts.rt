//! What the nodes have kept of one room.

ghost use Rattle.std.specs.Prelude.{◌≡◌, IfOk};
ghost use Rattle.paxos_core_world.specs.World.{nodes_of};
ghost use Rattle.farm_nodes_open_seats.specs.Kept.{kept_of};

use lang_base::NoMemory;
use paxos_core_world::kept::Kept;
use std::alloc::Global;

/// What a node has kept of the room.
fn part_of(node: &[Kept], room: u16) -> Kept
    ensures { result ≡ nodes_of node.now room }
{
    match node.get(usize::from(room)) {
        Some(part) => *part,
        None => Kept::nothing(),
    }
}

/// What each node has kept of the room.
pub fn room_parts(alloc: Global, kept: &[Vec<Kept>], room: u16) -> Result<Vec<Kept>, NoMemory>
    ensures { IfOk result (λ parts. parts.items ≡ kept_of kept.now room) }
{
    let mut parts = Vec::new(alloc);
    for node in kept {
        match parts.push(part_of(node.as_slice(), room)) {
            Ok(()) => {}
            Err(_) => return Err(NoMemory),
        }
    }
    Ok(parts)
}
