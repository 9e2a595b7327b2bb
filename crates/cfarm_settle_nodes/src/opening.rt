//! The nodes of a room of three before their turns, and lists of three.

ghost use Rattle.std.specs.Prelude.{◌≡◌, [], ◌∷◌, None, IfOk, IfSome};
ghost use Rattle.paxos_core_world.specs.Quorum.{majority_sizes};
ghost use Rattle.cfarm_settle_nodes.specs.Goes.{AllOfferFor, AreSeatsFor, AreThree};
ghost use Rattle.cfarm_settle_nodes.specs.Nodes.{AreAll};

use crate::settle_node::SettleNode;
use lang_base::{Language, NoMemory, Oracle, Pass};
use paxos_core_world::kept::Kept;
use paxos_core_world::quorum::Quorums;
use rooms::{Room, Seat};
use std::alloc::{AllocError, Global};

/// A list of three.
pub fn list_of_three<A: Drop>(
    alloc: Global,
    first: A,
    second: A,
    third: A,
) -> Result<Vec<A>, AllocError>
    ensures { IfOk result (λ all. all.items ≡ first ∷ second ∷ third ∷ []) }
{
    let mut all = Vec::with_capacity(alloc, 3)?;
    all.push(first)?;
    all.push(second)?;
    all.push(third)?;
    Ok(all)
}

/// The three of a list of three.
pub fn three_of_list<A: Drop>(all: Vec<A>) -> Option<(A, A, A)>
    ensures { IfSome result (λ s. (a b c : A) → all.items ≡ a ∷ b ∷ c ∷ [] → (s.0 ≡ a) × (s.1 ≡ b) × (s.2 ≡ c)) }
{
    let mut all = all;
    let (Some(third), Some(second), Some(first)) = (all.pop(), all.pop(), all.pop()) else {
        return None;
    };
    Some((first, second, third))
}

/// The quorums of three nodes: more than half of them.
fn three() -> Quorums
    ensures { result ≡ majority_sizes 3 }
{
    let Some(quorums) = Quorums::majorities(3) else {
        unreachable!();
    };
    quorums
}

/// The seats of a new room of three nodes that have kept nothing, by the nodes' numbers.
fn seats<P: Pass>(alloc: Global) -> Result<(Seat<P>, Seat<P>, Seat<P>), NoMemory>
    ensures three { IfOk result (λ s. AreThree s.0 s.1 s.2) }
    ensures nothing { (f : P.In.Fun) → IfOk result (λ s. AllOfferFor f s.0 s.1 s.2) }
{
    let quorums = three();
    let kept = [Kept::nothing(); 3];
    let offers = list_of_three(alloc, None, None, None)?;
    let Ok(mut seats) = Room::open(alloc, &kept, offers, quorums) else {
        return Err(NoMemory);
    };
    let (third, second, first) = (seats.pop(), seats.pop(), seats.pop());
    Ok((first.unwrap(), second.unwrap(), third.unwrap()))
}

/// The nodes of a new room of three that have kept nothing. Each has an optimiser of its own, which draws for the input.
pub fn open<'a, O: Oracle + Drop>(
    alloc: Global,
    oracles: (O, O, O),
    input: &'a <<O::P as Pass>::In as Language>::Fun,
) -> Result<(SettleNode<'a, O>, SettleNode<'a, O>, SettleNode<'a, O>), NoMemory>
    ensures seats { IfOk result (λ n. AreSeatsFor input.now (n.0.seat, n.1.seat, n.2.seat)) }
    ensures inputs { IfOk result (λ n. AreAll input.now (n.0.input.now, n.1.input.now, n.2.input.now)) }
{
    let seats = seats::<O::P>(alloc)?;
    Ok((
        SettleNode::new(alloc, seats.0, oracles.0, input),
        SettleNode::new(alloc, seats.1, oracles.1, input),
        SettleNode::new(alloc, seats.2, oracles.2, input),
    ))
}
