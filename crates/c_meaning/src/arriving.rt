//! Where a word goes.

ghost use Rattle.std.specs.Prelude.{◌≡◌, ◌≤◌, MatchOption, IfSome, IfNone};
ghost use Rattle.c_program.specs.Meaning.{arrives, stores};
ghost use Rattle.c_meaning.specs.Reaching.{Reaches};
ghost use Rattle.c_meaning_machine.specs.Costs.{later_cost};
ghost use Rattle.c_meaning_machine.specs.Steps.{next_cost};

use crate::leaving::returns;
use c_meaning_machine::{Machine, Next};
use c_program::Target;
use lang_base::Shown;

/// A word goes to a variable, or nowhere. One that goes to the caller is left to the caller of this.
#[inline(always)]
#[tactic(auto, using(c_meaning_machine::proofs::Stops::resume_fails))]
pub fn settle(machine: &mut Machine, target: Target, word: u32) -> Option<Next>
    ensures meaning { MatchOption result (target ≡ Target.Caller) (Reaches machine.old machine.new (arrives target word)) }
    ensures cost { IfSome result (λ next. next_cost next machine.new ≤ later_cost machine.old) }
    ensures same { IfNone result (machine.new ≡ machine.old) }
{
    match target {
        Target::Nowhere => Some(Next::Goes),
        Target::Local(number) => {
            machine.scope.set_local(number, Some(word));
            Some(Next::Goes)
        }
        Target::Global(number) => Some(store(machine, number, 0, word)),
        Target::Caller => None,
    }
}

/// A cell becomes a word.
#[tactic(auto, using(c_meaning_machine::proofs::Stops::resume_fails))]
pub fn store(machine: &mut Machine, global: usize, index: u32, word: u32) -> Next
    ensures meaning { Reaches machine.old machine.new (λ s. stores global s (Some index) (Some word)) result }
    ensures cost { next_cost result machine.new ≤ later_cost machine.old }
{
    if machine.scope.set_cell(global, index, word) {
        Next::Goes
    } else {
        Next::Stops(Shown::Wrong)
    }
}

/// A word goes to its target.
#[inline(always)]
pub fn arrive(machine: &mut Machine, target: Target, word: u32) -> Next
    ensures meaning { Reaches machine.old machine.new (arrives target word) result }
    ensures cost { next_cost result machine.new ≤ later_cost machine.old }
{
    match settle(machine, target, word) {
        Some(next) => next,
        None => returns(machine, Some(word)),
    }
}
