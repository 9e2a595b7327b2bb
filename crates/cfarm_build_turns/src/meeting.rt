//! Neighbours meet.

ghost use Rattle.std.specs.Prelude.{◌≡◌, ◌<◌, ◌+◌, IsTrue, None, length};
ghost use Rattle.std.specs.Arc.{arc_value};
ghost use Rattle.std.specs.List.{AllByRecursion, AllZip};
ghost use Rattle.cfarm_build_meeting.specs.Alike.{HaveCounted};
ghost use Rattle.cfarm_build_meeting.specs.Neighbours.{EachTwo};
ghost use Rattle.cfarm_build_meeting.specs.Counted.{AreCountedAt, AreMissed};
ghost use Rattle.cfarm_build_meeting.specs.Twice.{MeetAt};
ghost use Rattle.cfarm_build_turns.specs.Nodes.{HasFewFunctions, NodeStays, NodesMetTwice};

use cfarm_build_faults::meet_nodes;
use durable_model::Disk;
use farm_nodes_turn_node::FarmNode;
use rooms_hall::Naming;

/// Whether so many functions are all of both.
fn is_all(count: u16, first: usize, second: usize) -> bool
    ensures yes { IsTrue result → (count ≡ first) × (count ≡ second) }
    ensures no { count ≡ first → count ≡ second → IsTrue result }
{
    let count = usize::from(count);
    count == first && count == second
}

/// The node of this number and the next one meet. Answers whether all functions were counted.
fn meet_at<D: Disk, O, H: Naming>(nodes: &mut [FarmNode<D, O, H>], number: usize) -> bool
    requires next { number + 1 < length nodes.old }
    requires going { AllByRecursion (λ n. n.halted ≡ None) nodes.old }
    requires few { AllByRecursion (λ n. HasFewFunctions (arc_value n.program)) nodes.old }
    ensures stay { AllZip (NodeStays D.Disk) nodes.old nodes.new }
    ensures met { MeetAt (λ n. n.seats.items) nodes.old nodes.new number }
    ensures counted { IsTrue result → AreCountedAt (λ n. n.seats.items) nodes.new number }
    ensures missed { (IsTrue result → ⊥) → AreMissed (λ n. n.seats.items) nodes.new }
{
    let (front, back) = nodes.split_at_mut(number + 1);
    let first = &mut front[number];
    let second = &mut back[0];
    let count = meet_nodes(first, second);
    is_all(count, first.seats.len(), second.seats.len())
}

/// Each two neighbours meet, from the first node to the last, and again on the way back: so node 0 hears what the last node knows.
/// Answers whether all functions were counted, of the last two on the way there, and of each two on the way back; at the first two whose were
/// not it ends.
pub(crate) fn meet_neighbours<D: Disk, O, H: Naming>(nodes: &mut [FarmNode<D, O, H>]) -> bool
    requires going { AllByRecursion (λ n. n.halted ≡ None) nodes.old }
    requires few { AllByRecursion (λ n. HasFewFunctions (arc_value n.program)) nodes.old }
    ensures stay { AllZip (NodeStays D.Disk) nodes.old nodes.new }
    ensures twice { IsTrue result → NodesMetTwice nodes.old nodes.new }
    ensures counted { IsTrue result → EachTwo (λ n m. HaveCounted n.seats.items m.seats.items) nodes.new }
    ensures missed { (IsTrue result → ⊥) → AreMissed (λ n. n.seats.items) nodes.new }
{
    let mut counted = true;
    for next in 1..nodes.len() {
        counted = meet_at(nodes, next - 1);
    }
    if !counted {
        return false;
    }
    let count = nodes.len();
    for done in 1..count {
        if !meet_at(nodes, count - 1 - done) {
            return false;
        }
    }
    true
}
