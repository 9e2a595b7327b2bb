//! The steps of a node in one room, by what it would do there.

ghost use Rattle.std.specs.Prelude.{◌≡◌, ℕ, ◌<◌, ◌↔◌, Some, None, IsErr, IfOk};
ghost use Rattle.std.specs.Option.{option_map};
ghost use Rattle.paxos_core_node_steps.specs.declared.step.Step.TheVariants as step;
ghost use Rattle.paxos_core_world.specs.declared.vote.Vote.{Vote};
ghost use Rattle.rooms.specs.Did.{Forgotten};
ghost use Rattle.rooms.specs.Would.{would, Acted};
ghost use Rattle.rooms.specs.SeatAct.TheVariants as act;

use paxos_core_world::vote::Vote;
use rooms::{CoreError, WordSeat};

/// Starts the node's least own ballot above all that it has started or promised.
pub fn start(words: &mut WordSeat) -> Result<u16, CoreError>
    ensures answer { IfOk result (λ b. would words.old act.Start ≡ Some (step.Start b)) }
    ensures spent { IsErr result ↔ (would words.old act.Start ≡ None) }
    ensures acted { Acted act.Start words.old words.new }
{
    words.bounds();
    words.start()
}

/// Promises the ballot last seen of node `j`.
pub fn promise(words: &mut WordSeat, j: u8) -> Option<u16>
    requires { j < words.old.node.quorums.nodes }
    ensures answer { option_map step.Promise result ≡ would words.old (act.Promise j) }
    ensures acted { Acted (act.Promise j) words.old words.new }
{
    words.promise(j)
}

/// Proposes under the ballot under way.
pub fn propose(words: &mut WordSeat) -> Option<(u16, u16)>
    ensures answer { option_map (λ (p : ℕ × ℕ). step.Propose p.0 p.1) result ≡ would words.old act.Propose }
    ensures acted { Acted act.Propose words.old words.new }
{
    words.propose()
}

/// Votes for what node `j` was last seen to have proposed.
pub fn accept(words: &mut WordSeat, j: u8) -> Option<Vote>
    requires { j < words.old.node.quorums.nodes }
    ensures answer { option_map (λ (x : Vote). step.Accept x.ballot x.value) result ≡ would words.old (act.Accept j) }
    ensures acted { Acted (act.Accept j) words.old words.new }
{
    words.accept(j)
}

/// Forgets all but what the node keeps.
pub fn forget(words: &mut WordSeat)
    ensures { Forgotten words.old words.new }
{
    let _found = words.forget();
}
