//! The statements of many actions, in parts, side by side.

ghost use Rattle.std.specs.Prelude.{IfOk};
ghost use Rattle.cfarm_verify_reading.specs.Lowered.{AreLowered, Fit, JoinsLowered};

use c_program::Action;
use cminor::lower_actions;
use cminor_syntax::Statement;
use lang_base::NoMemory;
use std::alloc::Global;
use std::thread::{Threads, join};

/// The statements of a part.
type Lowered = Result<Vec<Statement>, NoMemory>;

/// Those of two parts, one behind the other.
fn joined(first: Lowered, second: Lowered) -> Lowered
    ensures { JoinsLowered first second result }
{
    match first {
        Ok(mut front) => match second {
            Ok(mut back) => match front.append(&mut back) {
                Ok(()) => Ok(front),
                Err(_) => Err(NoMemory),
            },
            Err(fault) => Err(fault),
        },
        Err(fault) => Err(fault),
    }
}

/// Those of actions, in two parts, side by side.
fn lower_halves<R: Threads + Sync>(rt: &R, alloc: Global, spare: u16, actions: &[Action]) -> Lowered
    requires fit { Fit spare actions.now }
    ensures { IfOk result (λ ss. AreLowered spare actions.now ss.items) }
{
    let (front, back) = actions.split_at(actions.len() / 2);
    let (first, second) = join(
        rt,
        || -> Lowered
            requires { Fit spare front.now }
            ensures { IfOk result (λ ss. AreLowered spare front.entry.now ss.items) }
        { lower_actions(alloc, spare, front) },
        || -> Lowered
            requires { Fit spare back.now }
            ensures { IfOk result (λ ss. AreLowered spare back.entry.now ss.items) }
        { lower_actions(alloc, spare, back) },
    );
    joined(first, second)
}

/// The same in four parts.
fn lower_quarters<R: Threads + Sync>(
    rt: &R,
    alloc: Global,
    spare: u16,
    actions: &[Action],
) -> Lowered
    requires fit { Fit spare actions.now }
    ensures { IfOk result (λ ss. AreLowered spare actions.now ss.items) }
{
    let (front, back) = actions.split_at(actions.len() / 2);
    let (first, second) = join(
        rt,
        || -> Lowered
            requires { Fit spare front.now }
            ensures { IfOk result (λ ss. AreLowered spare front.entry.now ss.items) }
        { lower_halves(rt, alloc, spare, front) },
        || -> Lowered
            requires { Fit spare back.now }
            ensures { IfOk result (λ ss. AreLowered spare back.entry.now ss.items) }
        { lower_halves(rt, alloc, spare, back) },
    );
    joined(first, second)
}

/// Those of actions: many of them in four parts, side by side.
pub(crate) fn lower_many<R: Threads + Sync>(
    rt: &R,
    alloc: Global,
    spare: u16,
    actions: &[Action],
) -> Lowered
    requires fit { Fit spare actions.now }
    ensures { IfOk result (λ ss. AreLowered spare actions.now ss.items) }
{
    if actions.len() > 8_192 {
        return lower_quarters(rt, alloc, spare, actions);
    }
    lower_actions(alloc, spare, actions)
}
