ghost use Rattle.std.specs.Prelude.{◌≡◌, ℕ, ◌≤◌, IfOk, length};
ghost use Rattle.paxos_core_world.specs.World.{Has};
ghost use Rattle.paxos_core_world.specs.declared.msg.Msg.TheVariants.{Propose};

use crate::shown::shown;
use paxos_core_world::kept::Kept;
use paxos_core_world::msg::Msg;
use paxos_core_world::quorum::Quorums;
use std::alloc::{AllocError, Global};

/// All that stands in a room, and has happened in it since it was opened. Lists have the newest first, and each ballot
/// that was begun or proposed under is from 1.
#[derive(Debug, Drop)]
pub struct World {
    /// How many nodes the room has, and the sizes of its quorums.
    pub quorums: Quorums,
    /// What each node keeps, by its number.
    pub nodes: Vec<Kept>,
    /// The messages that were ever sent.
    pub sent: Vec<Msg>,
    /// The ballots that were begun.
    pub begun: Vec<u16>,
    /// Who learned which value.
    pub learned: Vec<(u8, u16)>,
    ghost sized: { length nodes.items ≡ quorums.nodes },
    ghost begun_from_one: { (b : ℕ) → Has b begun.items → 1 ≤ b },
    ghost proposed_from_one: { (b v : ℕ) → Has (Propose b v) sent.items → 1 ≤ b },
}

impl World {
    ghost use Rattle.paxos_core_world.specs.World.{opening, nodes_of};
    ghost use Rattle.paxos_reference.specs.Listed.{world_of};

    /// The world of a room as it is opened with these kept parts, in the order of their nodes, and quorums.
    pub fn opening(alloc: Global, parts: &[Kept], quorums: Quorums) -> Result<World, AllocError>
        requires { length parts.now ≡ quorums.nodes }
        ensures world { IfOk result (λ w. world_of w ≡ opening quorums.nodes (nodes_of parts.now)) }
        ensures nodes { IfOk result (λ w. w.nodes.items ≡ parts.now) }
        ensures quorums { IfOk result (λ w. w.quorums ≡ quorums) }
    {
        Ok(World {
            quorums,
            nodes: Vec::from_slice(alloc, parts)?,
            sent: shown(alloc, parts)?,
            begun: Vec::new(alloc),
            learned: Vec::new(alloc),
        })
    }
}
