//! The step of the protocol that a node takes next.

ghost use Rattle.std.specs.Prelude.{◌≡◌, ◌&&◌, IfSome, IfNone};
ghost use Rattle.farm_nodes_sweep_step.specs.Next.{HasNoNext};
ghost use Rattle.farm_nodes_sweep_step.specs.Staged.{IsStaged};
ghost use Rattle.farm_nodes_turn_room.specs.Leading.{is_passed, may_start};

use farm_nodes_sweep_step::{Staged, stage};
use farm_nodes_turn_order::WordSeat;

/// What the node, which has looked, is about to do in the room, where there is something. It starts a ballot only where it may, and
/// where it is its turn to.
pub fn stage_act(seat: &WordSeat, room: u16, is_its_turn: bool) -> Option<Staged>
    ensures some { IfSome result (IsStaged room (is_its_turn && may_start seat.now.node) seat.now) }
    ensures none { IfNone result (HasNoNext (is_its_turn && may_start seat.now.node) seat.now) }
{
    let starts = may_start(seat);
    stage(seat, room, is_its_turn && starts)
}

/// Whether the node may start a ballot.
fn may_start(seat: &WordSeat) -> bool
    ensures { result ≡ may_start seat.now.node }
{
    let kept = seat.kept();
    kept.offered() && seat.learned().is_none() && is_passed(seat.ballot(), kept.promised())
}

/// Whether the ballot under way, if there is one, is below the promised one.
fn is_passed(under_way: Option<u16>, promised: u16) -> bool
    ensures { result ≡ is_passed under_way promised }
{
    match under_way {
        None => true,
        Some(ballot) => ballot < promised,
    }
}
