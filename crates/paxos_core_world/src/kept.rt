ghost use Rattle.std.specs.Prelude.{◌≡◌, ◌≤◌, SomeIff};
ghost use Rattle.paxos_core_world.specs.KeptPart.{nothing_kept, part, IsInForm, IsWithinPromise, with_offer, with_start, with_promise, with_vote, vote};

use crate::vote::Vote;
use std::marker::Model;

/// What one node of a room has to keep over a restart: whether it has offered, the highest ballot
/// that it started, the highest ballot that it promised, and its vote. Ballot 0 stands for none.
#[derive(Clone, Copy, Debug, PartialEq, Eq)]
pub struct Kept {
    offered: bool,
    started: u16,
    promised: u16,
    accepted: Option<Vote>,
}

impl Model for Kept {
    ghost use Rattle.paxos_core_world.specs.KeptPart.{KeptPart, IsWithinPromise};

    ghost Value = { KeptPart };

    ghost view = { λ k. record {
      offered = k.offered;
      started = k.started;
      promised = k.promised;
      accepted = k.accepted;
    } };

    ghost invariant = { λ k. IsWithinPromise k.promised k.accepted };

    ghost inverse = { λ p. record {
      offered = p.offered;
      started = p.started;
      promised = p.promised;
      accepted = p.accepted;
    } };
}

impl Kept {
    /// The part of a node that has kept nothing yet.
    pub fn nothing() -> Self
        ensures { result ≡ nothing_kept }
    {
        Kept {
            offered: false,
            started: 0,
            promised: 0,
            accepted: None,
        }
    }

    /// The part with these four entries, a vote being a ballot and a value. None where a number is
    /// above 65,535, or the vote's ballot is not from 1 to `promised`.
    pub fn of(
        offered: bool,
        started: u32,
        promised: u32,
        accepted: Option<(u32, u32)>,
    ) -> Option<Self>
        ensures { SomeIff result (IsInForm started promised accepted) (part offered started promised accepted) }
    {
        let started = u16::try_from(started).ok()?;
        let promised = u16::try_from(promised).ok()?;
        let accepted = match accepted {
            None => None,
            Some((ballot, value)) => Some(vote_within(promised, ballot, value)?),
        };
        Some(Kept {
            offered,
            started,
            promised,
            accepted,
        })
    }

    pub fn offered(&self) -> bool
        ensures { result ≡ self.now.offered }
    {
        self.offered
    }

    pub fn started(&self) -> u16
        ensures { result ≡ self.now.started }
    {
        self.started
    }

    pub fn promised(&self) -> u16
        ensures { result ≡ self.now.promised }
    {
        self.promised
    }

    pub fn accepted(&self) -> Option<Vote>
        ensures value { result ≡ self.now.accepted }
        ensures within { IsWithinPromise self.now.promised self.now.accepted }
    {
        self.accepted
    }

    /// The part once the node has offered.
    pub fn with_offer(self) -> Self
        ensures { result ≡ with_offer self }
    {
        Kept {
            offered: true,
            ..self
        }
    }

    /// The part once the node has started a ballot.
    pub fn with_start(self, ballot: u16) -> Self
        ensures { result ≡ with_start ballot self }
    {
        Kept {
            started: ballot,
            ..self
        }
    }

    /// The part once the node has promised a ballot, which is not below its promise so far.
    pub fn with_promise(self, ballot: u16) -> Self
        requires { self.promised ≤ ballot }
        ensures { result ≡ with_promise ballot self }
    {
        Kept {
            promised: ballot,
            ..self
        }
    }

    /// The part once the node has voted, under a ballot that is not below its promise so far.
    pub fn with_vote(self, vote: Vote) -> Self
        requires one { 1 ≤ vote.ballot }
        requires promised { self.promised ≤ vote.ballot }
        ensures { result ≡ with_vote vote self }
    {
        Kept {
            promised: vote.ballot,
            accepted: Some(vote),
            ..self
        }
    }
}

/// The vote with these numbers, where its ballot is from 1 to `promised` and its value fits.
fn vote_within(promised: u16, ballot: u32, value: u32) -> Option<Vote>
    ensures { SomeIff result ((1 ≤ ballot) × (ballot ≤ promised) × (value ≤ 65535)) (vote ballot value) }
{
    let ballot = u16::try_from(ballot).ok()?;
    let value = u16::try_from(value).ok()?;
    if 1 <= ballot && ballot <= promised {
        Some(Vote { ballot, value })
    } else {
        None
    }
}
