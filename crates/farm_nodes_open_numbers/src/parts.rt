ghost use Rattle.std.specs.Prelude.{◌≡◌, ◌<◌, IfOk};
ghost use Rattle.paxos_core_world.specs.World.{nodes_of};
ghost use Rattle.farm_nodes_open_numbers.specs.Kept.{four_kept, parts_of};

use lang_base::NoMemory;
use paxos_core_world::kept::Kept;
use std::alloc::Global;

/// What a node has kept of a room.
fn part_in(node: &[Kept], room: u16) -> Kept
    ensures { result ≡ nodes_of node.now room }
{
    match node.get(usize::from(room)) {
        Some(part) => *part,
        None => Kept::nothing(),
    }
}

/// What a node has kept of the four rooms of a function.
fn four_in(node: &[Kept], function: u16) -> [Kept; 4]
    requires { function < 16384 }
    ensures { result ≡ four_kept node.now function }
{
    let room = 4 * function;
    [
        part_in(node, room),
        part_in(node, room + 1),
        part_in(node, room + 2),
        part_in(node, room + 3),
    ]
}

/// What each node has kept of the four rooms of a function.
pub fn parts_of(
    alloc: Global,
    kept: &[Vec<Kept>],
    function: u16,
) -> Result<Vec<[Kept; 4]>, NoMemory>
    requires { function < 16384 }
    ensures { IfOk result (λ parts. parts.items ≡ parts_of kept.now function) }
{
    let mut parts = Vec::new(alloc);
    for node in kept {
        match parts.push(four_in(node.as_slice(), function)) {
            Ok(()) => {}
            Err(_) => return Err(NoMemory),
        }
    }
    Ok(parts)
}
