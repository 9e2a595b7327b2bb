//! A node of `settle`, and how it takes the turns that it is asked for. It is one of the pass from LTL to Linear, since it is proved of
//! known types that they can be sent.

ghost use Rattle.std.specs.Prelude.{◌≡◌, IfSome};
ghost use Rattle.cfarm_settle_nodes.specs.Nodes.{HasTurned};

use cfarm_settle_nodes::SettleNode;
use farm_nodes_threads_pace::{Outcome, TakesTurns};
use linearize_check::Linearize;
use oracle_order::OrderOracle;
use rooms::Seat;

/// A node that takes turns, and whether memory was refused in one of them.
#[derive(Drop)]
pub(crate) struct Settler<'a> {
    pub node: SettleNode<'a, OrderOracle>,
    has_failed: bool,
}

impl<'a> Settler<'a> {
    /// It has taken no turn.
    pub(crate) fn new(node: SettleNode<'a, OrderOracle>) -> Settler<'a>
        ensures seat { result.node.seat ≡ node.entry.seat }
        ensures input { result.node.input.now ≡ node.entry.input.now }
    {
        Settler {
            node,
            has_failed: false,
        }
    }
}

/// One turn. Each function of LTL has a layout, so only refused memory is told.
fn turn(settler: &mut Settler<'_>) -> Outcome
    ensures { HasTurned settler.old.node.input.now settler.new.node.input.now settler.old.node.seat settler.new.node.seat }
{
    match settler.node.turn() {
        Ok(true) => Outcome::Moved,
        Ok(false) => Outcome::Idle,
        Err(_) => {
            settler.has_failed = true;
            Outcome::Failed
        }
    }
}

/// Whether it has learned.
fn has_learned(settler: &Settler<'_>) -> bool {
    settler.node.has_learned()
}

/// Whether a turn of it is not to be put off: its own ballot is under way, and it has promised no higher one, or it has yet to offer.
/// So all nodes make their offers at once.
fn leads(settler: &Settler<'_>) -> bool {
    settler.node.leads() || !settler.node.has_offered()
}

/// Its seat, if no memory was refused.
pub(crate) fn seat_of(settler: Settler<'_>) -> Option<Seat<Linearize>>
    ensures { IfSome result (λ seat. seat ≡ settler.entry.node.seat) }
{
    if settler.has_failed {
        None
    } else {
        Some(settler.node.into_seat())
    }
}

impl TakesTurns for Settler<'_> {
    ghost use Rattle.std.specs.Prelude.{⊤};
    ghost use Rattle.cfarm_settle_nodes.specs.Nodes.{HasTurned};

    ghost is_fit = { λ s. ⊤ };

    ghost has_room = { λ s room. ⊤ };

    ghost turned = { λ s t. HasTurned s.node.input.now t.node.input.now s.node.seat t.node.seat };

    fn rooms(&self) -> u32 {
        1
    }

    fn has_learned(&self, _room: u16) -> bool {
        has_learned(self)
    }

    fn leads(&self, _room: u16) -> bool {
        leads(self)
    }

    fn take_turn(&mut self, _room: u16) -> Outcome {
        turn(self)
    }
}
