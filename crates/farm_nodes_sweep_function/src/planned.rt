ghost use Rattle.std.specs.Prelude.{◌≡◌};
ghost use Rattle.farm_nodes_sweep_function.specs.Planned.{told_by};
ghost use Rattle.farm_nodes_sweep_function.specs.declared.planned.Step.TheVariants as step;

use acceptor_log_form::Record;
use farm_nodes_sweep_room::Choice;
use farm_nodes_turn_passes::{Alloc, ConstProp, Cse, Linearize};
use farm_nodes_turn_room::Fault;
use offers::Offer;
use rooms_crash::act::SeatAct;
use std::sync::Arc;

/// What a node is about to do in a room.
#[derive(Drop)]
pub enum Step {
    /// A step of the protocol.
    Act(SeatAct),
    /// Its offer in the room of the first pass.
    First(Arc<Offer<ConstProp>>),
    /// In that of the second.
    Second(Arc<Offer<Cse>>),
    /// In that of the third.
    Third(Arc<Offer<Alloc>>),
    /// In that of the fourth.
    Fourth(Arc<Offer<Linearize>>),
}

/// What a node is about to do in a room, and its record.
#[derive(Drop)]
pub struct Planned {
    pub entry: Record,
    pub step: Step,
}

/// What was chosen in a room, its offers being such a step.
macro_rules! as_planned {
    ($step:ident, $told:expr) => {
        match $told {
            Ok(Choice::Offer(entry, offer)) => Ok(Some(Planned {
                entry,
                step: Step::$step(offer),
            })),
            Ok(Choice::Act(staged)) => Ok(Some(Planned {
                entry: staged.entry,
                step: Step::Act(staged.act),
            })),
            Ok(Choice::Nothing) => Ok(None),
            Err(fault) => Err(fault),
        }
    };
}

/// What was chosen in the room of the first pass.
pub(crate) fn first(
    told: Result<Choice<Arc<Offer<ConstProp>>>, Fault>,
) -> Result<Option<Planned>, Fault>
    ensures { result ≡ told_by step.First told }
{
    as_planned!(First, told)
}

/// In that of the second.
pub(crate) fn second(told: Result<Choice<Arc<Offer<Cse>>>, Fault>) -> Result<Option<Planned>, Fault>
    ensures { result ≡ told_by step.Second told }
{
    as_planned!(Second, told)
}

/// In that of the third.
pub(crate) fn third(
    told: Result<Choice<Arc<Offer<Alloc>>>, Fault>,
) -> Result<Option<Planned>, Fault>
    ensures { result ≡ told_by step.Third told }
{
    as_planned!(Third, told)
}

/// In that of the fourth.
pub(crate) fn fourth(
    told: Result<Choice<Arc<Offer<Linearize>>>, Fault>,
) -> Result<Option<Planned>, Fault>
    ensures { result ≡ told_by step.Fourth told }
{
    as_planned!(Fourth, told)
}
