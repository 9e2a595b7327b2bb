ghost use Rattle.std.specs.Prelude.{◌≡◌, ◌≤◌, SomeIff};
ghost use Rattle.paxos_core_world.specs.Quorum.{accept_quorum, majority_sizes, promise_quorum, sizes, AreQuorums};

use std::marker::Model;

/// How many nodes there are, 2 to 7, and how many of them are a promise quorum, on which a proposal
/// rests, and an accept quorum, whose votes choose a value (Howard, Malkhi and Spiegelman, Flexible
/// Paxos, section 4). The two sizes are together above the number of nodes.
#[derive(Clone, Copy, Debug, PartialEq, Eq)]
pub struct Quorums {
    nodes: u8,
    promise: u8,
    accept: u8,
}

impl Model for Quorums {
    ghost use Rattle.paxos_core_world.specs.Quorum.{AreQuorums, Sizes};

    ghost Value = { Sizes };

    ghost view = { λ q. record { nodes = q.nodes; promise = q.promise; accept = q.accept } };

    ghost invariant = { λ q. AreQuorums (record { nodes = q.nodes; promise = q.promise; accept = q.accept }) };

    ghost inverse = { λ p. record { nodes = p.nodes; promise = p.promise; accept = p.accept } };
}

impl Quorums {
    /// These sizes. None where they are not of 2 to 7 nodes, a size is not from 1 to their number,
    /// or the two are not together above it.
    pub fn of(nodes: u8, promise: u8, accept: u8) -> Option<Self>
        ensures { SomeIff result (AreQuorums (sizes nodes promise accept)) (sizes nodes promise accept) }
    {
        let are_nodes = 2 <= nodes && nodes <= 7;
        let is_promise = 1 <= promise && promise <= nodes;
        let is_accept = 1 <= accept && accept <= nodes;
        let meet = u16::from(promise) + u16::from(accept) > u16::from(nodes);
        if are_nodes && is_promise && is_accept && meet {
            Some(Quorums {
                nodes,
                promise,
                accept,
            })
        } else {
            None
        }
    }

    /// The sizes with which both quorums are more than half of the nodes. None where the nodes are
    /// not 2 to 7.
    pub fn majorities(nodes: u8) -> Option<Self>
        ensures { SomeIff result ((2 ≤ nodes) × (nodes ≤ 7)) (majority_sizes nodes) }
    {
        if 2 <= nodes && nodes <= 7 {
            let half = nodes / 2;
            Some(Quorums {
                nodes,
                promise: half + 1,
                accept: half + 1,
            })
        } else {
            None
        }
    }

    pub fn nodes(self) -> u8
        ensures value { result ≡ self.nodes }
        ensures sizes { AreQuorums self }
    {
        self.nodes
    }

    pub fn promise(self) -> u8
        ensures { result ≡ self.promise }
    {
        self.promise
    }

    pub fn accept(self) -> u8
        ensures { result ≡ self.accept }
    {
        self.accept
    }
}

/// Whether so many nodes are a promise quorum, on which a proposal may rest.
#[tactic(auto, unfolding(crate::specs::Quorum::promise_quorum))]
pub fn is_promise_quorum(quorums: Quorums, count: usize) -> bool
    ensures { result ≡ promise_quorum quorums count }
{
    usize::from(quorums.promise) <= count
}

/// Whether so many nodes are an accept quorum, whose votes choose a value.
#[tactic(auto, unfolding(crate::specs::Quorum::accept_quorum))]
pub fn is_accept_quorum(quorums: Quorums, count: usize) -> bool
    ensures { result ≡ accept_quorum quorums count }
{
    count >= usize::from(quorums.accept)
}
