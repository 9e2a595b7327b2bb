//! Where a word goes.

ghost use Rattle.std.specs.Prelude.{◌≡◌, ◌≤◌, MatchOption, IfSome, IfNone};
ghost use Rattle.c_faults_step.specs.Steps.{Arrives, Stores, rest_cost, step_cost};

use crate::leaving::returns;
use c_faults::{Cause, Gap};
use c_faults_step::{Step, Tracer};
use c_program::Target;

/// A word goes to a variable, or nowhere. One that goes to the caller is left to the caller of this.
pub fn settle(tracer: &mut Tracer, target: Target, word: u32, at: usize) -> Option<Step>
    ensures meaning { MatchOption result (target ≡ Target.Caller) (Arrives tracer.old tracer.new target word at) }
    ensures cost { IfSome result (λ step. step_cost step tracer.new ≤ rest_cost tracer.old) }
    ensures same { IfNone result (tracer.new ≡ tracer.old) }
{
    match target {
        Target::Nowhere => Some(Step::Goes),
        Target::Local(number) => {
            tracer.scope.set_local(number, Some(word));
            Some(Step::Goes)
        }
        Target::Global(number) => Some(store(tracer, number, 0, word, at)),
        Target::Caller => None,
    }
}

/// A cell becomes a word.
#[tactic(auto, using(c_faults_step::proofs::Ahead::ahead_fails))]
pub fn store(tracer: &mut Tracer, global: usize, index: u32, word: u32, at: usize) -> Step
    ensures meaning { Stores tracer.old tracer.new global index word at result }
    ensures cost { step_cost result tracer.new ≤ rest_cost tracer.old }
{
    if tracer.scope.cell(global, index).is_none() {
        let cause = Cause::Past(global, index);
        return Step::Wrong(Gap { cause, place: at });
    }
    if tracer.scope.set_cell(global, index, word) {
        Step::Goes
    } else {
        Step::Over
    }
}

/// A word goes to its target.
pub fn arrive(tracer: &mut Tracer, target: Target, word: u32, at: usize) -> Step
    ensures meaning { Arrives tracer.old tracer.new target word at result }
    ensures cost { step_cost result tracer.new ≤ rest_cost tracer.old }
{
    match settle(tracer, target, word, at) {
        Some(step) => step,
        None => returns(tracer, Some(word)),
    }
}
