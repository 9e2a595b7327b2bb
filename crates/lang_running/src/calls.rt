//! Calls and returns: a caller waits and its callee begins, or the nearest caller goes on.

ghost use Rattle.std.specs.Prelude.{◌≡◌, ◌≤◌, ◌∷◌, length, slice_get, IfOk, OnOk};
ghost use Rattle.lang_running.specs.Functions.{HasFunction};
ghost use Rattle.lang_running.specs.Waiting.{AreApart};
ghost use Rattle.lang_running.specs.Fits.{CallersStand};
ghost use Rattle.lang_running.specs.Runs.{callers_of, caller_of, RunFits, WhereGone, StepsTo, GoesBack, StaysFit};

use crate::callers::Caller;
use crate::leaving::{Callee, Leaving};
use crate::state::Running;
use crate::stepping::Machine;
use crate::turn::Turn;
use lang_base::{Named, NoMemory};

/// The running function waits for the callee, whose words begin here.
fn enter<P: Copy + Drop, T: Copy + Drop>(
    run: &mut Running<P, T>,
    callee: Callee<P, T>,
    base: usize,
) -> Result<(), NoMemory>
    ensures function { OnOk result (run.new.function ≡ callee.function) }
    ensures place { OnOk result (run.new.place ≡ callee.place) }
    ensures base { OnOk result (run.new.base ≡ base) }
    ensures words { OnOk result (run.new.words.items ≡ run.old.words.items) }
    ensures callers { OnOk result (run.new.callers ≡ caller_of run.old callee ∷ run.old.callers) }
{
    run.callers.push(Caller {
        function: run.function,
        place: callee.back,
        base: run.base,
        target: callee.target,
    })?;
    run.function = callee.function;
    run.place = callee.place;
    run.base = base;
    Ok(())
}

/// Goes back to the nearest caller with a value or none; where nobody waits the value is the result of
/// the run.
fn go_back<M: Machine>(run: &mut Running<M::Place, M::Target>, value: Option<u32>) -> Turn
    requires stand { CallersStand M.can_resume (callers_of run.old) }
    requires begun { run.old.base ≤ length run.old.words.items }
    requires apart { AreApart run.old.callers run.old.base }
    ensures turn { GoesBack M.Machine value run.old run.new result }
    ensures fits { StaysFit M.Machine run.old run.new result }
{
    let Some(caller) = run.callers.pop() else {
        return match value {
            None => Turn::Fails,
            Some(word) => Turn::Ends(word),
        };
    };
    run.words.truncate(run.base);
    run.function = caller.function;
    run.place = caller.place;
    run.base = caller.base;
    M::resume(run.words.slice_mut(run.base..), caller.target, value);
    Turn::Goes
}

/// Does the call or the return at which the running function stands.
pub(crate) fn leave<M: Machine>(
    run: &mut Running<M::Place, M::Target>,
    functions: &[Named<M::Function>],
    ready: &M::Ready,
    running: &M::Function,
) -> Result<Turn, NoMemory>
    requires running { HasFunction (slice_get functions.now run.old.function) running.now }
    requires ready { M.are_ready functions.now ready.now running.now }
    requires fits { RunFits M.fits M.can_resume functions.now run.old }
    requires leaves { M.leaves running.now run.old.place }
    ensures turn { IfOk result (StepsTo M.Machine functions.now run.old run.new) }
    ensures fits { IfOk result (λ turn. WhereGone turn (RunFits M.fits M.can_resume functions.now run.new)) }
{
    let base = run.words.len();
    match M::leave(
        functions,
        ready,
        running,
        run.place,
        run.base,
        &mut run.words,
    )? {
        Leaving::Calls(callee) => {
            enter(run, callee, base)?;
            Ok(Turn::Goes)
        }
        Leaving::Returns(value) => Ok(go_back::<M>(run, value)),
        Leaving::Fails => Ok(Turn::Fails),
    }
}
