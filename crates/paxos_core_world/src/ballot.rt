ghost use Rattle.std.specs.Prelude.{◌↔◌, ◌<◌, IsTrue};
ghost use Rattle.paxos_core_world.specs.Ballot.{Owns};

/// Whether the ballot is one of the node's own, of `n` nodes.
pub fn owns(n: usize, node: usize, ballot: u16) -> bool
    requires { 0 < n }
    ensures { IsTrue result ↔ Owns n node ballot }
{
    ballot != 0 && usize::from(ballot) % n == node
}
