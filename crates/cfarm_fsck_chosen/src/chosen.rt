ghost use Rattle.std.specs.Prelude.{◌≡◌, ◌≤◌, ◌<◌, ◌+◌, ◌^◌, suc, if◌then◌else◌, length};
ghost use Rattle.cfarm_fsck_chosen.specs.Chosen.{chosen_in, has_quorum, is_under, votes_under};

use paxos_core_world::kept::Kept;
use paxos_core_world::vote::Vote;

/// Whether it is a vote under this ballot.
pub fn is_under(ballot: u16, vote: Option<Vote>) -> bool
    ensures { result ≡ is_under ballot vote }
{
    match vote {
        None => false,
        Some(vote) => vote.ballot == ballot,
    }
}

/// How many of the nodes have their last vote under the ballot.
fn votes_under(ballot: u16, nodes: &[Kept]) -> usize
    ensures count { result ≡ votes_under ballot nodes.now }
    ensures most { result ≤ length nodes.now }
{
    let mut votes = 0usize;
    for number in 0..nodes.len() {
        votes = counted(votes, is_under(ballot, nodes[number].accepted()));
    }
    votes
}

/// One more, if it is one.
fn counted(votes: usize, is_one: bool) -> usize
    requires { votes + 1 < 2 ^ 64 }
    ensures value { result ≡ if is_one then suc votes else votes }
    ensures most { result ≤ votes + 1 }
{
    if is_one { votes + 1 } else { votes }
}

/// Whether so many nodes have their last vote under the ballot of this one.
fn has_quorum(accept: u8, nodes: &[Kept], vote: Option<Vote>) -> bool
    ensures { result ≡ has_quorum accept nodes.now vote }
{
    match vote {
        None => false,
        Some(vote) => usize::from(accept) <= votes_under(vote.ballot, nodes),
    }
}

/// The first node's last vote under whose ballot the last votes of an accept quorum are, where those have so many nodes.
pub fn chosen_in(accept: u8, nodes: &[Kept]) -> Option<Vote>
    ensures { result ≡ chosen_in accept nodes.now }
{
    for number in 0..nodes.len() {
        let vote = nodes[number].accepted();
        if has_quorum(accept, nodes, vote) {
            return vote;
        }
    }
    None
}
