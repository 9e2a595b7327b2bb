//! Turns of loops.

ghost use Rattle.std.specs.Prelude.{◌≡◌, ◌<◌, ◌≤◌, [], IfOk};
ghost use Rattle.std.specs.Option.{option_map};
ghost use Rattle.c_program.specs.Views.{term_tree, action_tree, actions_tree};
ghost use Rattle.c_program.specs.State.{word};
ghost use Rattle.c_meaning.specs.Reaching.{ReachesRest, RestCostsAtMost};
ghost use Rattle.c_meaning.specs.Turning.{loop_of, loop_cost, behind_of_loop, loop_behind_cost, TurnsOnce, TurnCostsAtMost, TurnsBody, BodyCostsAtMost, TurnsBehind, BehindCostsAtMost, BeginsBefore, BeginCostsAtMost, DoTheSame};
ghost use Rattle.c_meaning_machine.specs.AtOnce.{holds};
ghost use Rattle.c_meaning_machine.specs.Costs.{Costs, cost, cost_all};
ghost use Rattle.c_meaning_machine.specs.Resume.{here};

use c_meaning_machine::{Cycle, Front, Left, Machine, Next, advance, evaluate};
use c_program::{Action, Term};
use lang_base::{NoMemory, Shown};
use std::slice;

/// An action as some in order.
#[tactic(auto, using(c_meaning_machine::proofs::Levels::goes_on_to_nothing, c_program::proofs::Sequences::view_sequence))]
pub fn listed(action: &Action) -> &[Action]
    ensures meaning { DoTheSame action.now result.now }
    ensures cost { (lower : Costs) → cost_all lower (actions_tree result.now) ≤ cost lower (action_tree action.now) }
{
    match action {
        Action::Sequence(all) => all.as_slice(),
        _ => slice::from_ref(action),
    }
}

/// Whether a condition holds in the running function.
#[inline(always)]
fn holds_here(machine: &Machine, condition: &Term) -> Option<bool>
    ensures { result ≡ option_map holds (word (term_tree condition.now) (here machine.now [])) }
{
    let word = evaluate(condition, &machine.scope)?;
    Some(word != 0)
}

/// A loop from its head on.
#[tactic(auto, using(c_meaning_machine::proofs::Levels::level_none, c_meaning_machine::proofs::Stops::resume_runs_out))]
pub fn turn<'a>(machine: &mut Machine<'a>, cycle: Cycle<'a>) -> Result<Next, NoMemory>
    ensures meaning { IfOk result (ReachesRest machine.old machine.new (loop_of machine.old cycle.entry)) }
    ensures cost { IfOk result (RestCostsAtMost machine.old machine.new (loop_cost machine.old cycle.entry)) }
{
    let mut bound = cycle.bound;
    while bound > 0 {
        if let Some(next) = one_turn(machine, Cycle { bound, ..cycle })? {
            return Ok(next);
        }
        bound -= 1;
    }
    Ok(Next::Stops(Shown::Running))
}

/// A turn. Where the answer is none, the turn is done, and the next one may come.
#[inline(always)]
#[tactic(auto, using(c_meaning_machine::proofs::Levels::turn_fails, c_meaning_machine::proofs::Levels::turn_falls, c_meaning_machine::proofs::Levels::turn_begins, c_meaning_machine::proofs::Levels::cost_turns, c_meaning_machine::proofs::Levels::cost_some, c_meaning_machine::proofs::Stops::resume_fails))]
fn one_turn<'a>(machine: &mut Machine<'a>, cycle: Cycle<'a>) -> Result<Option<Next>, NoMemory>
    requires { 0 < cycle.bound }
    ensures meaning { IfOk result (TurnsOnce machine.old machine.new cycle.entry) }
    ensures cost { IfOk result (TurnCostsAtMost machine.old machine.new cycle.entry) }
{
    match holds_here(machine, cycle.condition) {
        None => Ok(Some(Next::Stops(Shown::Wrong))),
        Some(false) => {
            machine.actions = &[];
            Ok(Some(Next::Goes))
        }
        Some(true) => {
            let bound = cycle.bound - 1;
            body_turn(machine, Cycle { bound, ..cycle })
        }
    }
}

/// An action that needs the stack begins, with this bound: behind it come the others, and then what is left.
#[inline(always)]
fn begin<'a>(
    machine: &mut Machine<'a>,
    left: Left<'a>,
    bound: u64,
    action: &'a Action,
    rest: &'a [Action],
) -> Result<Next, NoMemory>
    ensures meaning { IfOk result (BeginsBefore machine.old machine.new left.entry bound action.entry.now rest.entry.now) }
    ensures cost { IfOk result (BeginCostsAtMost machine.old machine.new left.entry bound action.entry.now rest.entry.now) }
{
    machine.left.push(left)?;
    machine.left.push(Left::Rest(bound, rest))?;
    machine.bound = bound;
    machine.actions = listed(action);
    Ok(Next::Goes)
}

/// The body of a loop, and what stands behind it. Where the answer is none, both are done.
#[inline(always)]
#[tactic(auto, using(c_meaning_machine::proofs::Stops::resume_fails))]
fn body_turn<'a>(machine: &mut Machine<'a>, cycle: Cycle<'a>) -> Result<Option<Next>, NoMemory>
    ensures meaning { IfOk result (TurnsBody machine.old machine.new cycle.entry) }
    ensures cost { IfOk result (BodyCostsAtMost machine.old machine.new cycle.entry) }
{
    match advance(&mut machine.scope, listed(cycle.body)) {
        Front::Wrong => Ok(Some(Next::Stops(Shown::Wrong))),
        Front::Done => behind_turn(machine, cycle),
        Front::Stays(action, rest) => {
            let next = begin(machine, Left::Body(cycle), cycle.bound, action, rest)?;
            Ok(Some(next))
        }
    }
}

/// What stands behind a loop's body: `continue` leaves the loop there. Where the answer is none, it is done.
#[inline(always)]
#[tactic(auto, using(c_meaning_machine::proofs::Stops::resume_fails))]
fn behind_turn<'a>(machine: &mut Machine<'a>, cycle: Cycle<'a>) -> Result<Option<Next>, NoMemory>
    ensures meaning { IfOk result (TurnsBehind machine.old machine.new cycle.entry) }
    ensures cost { IfOk result (BehindCostsAtMost machine.old machine.new cycle.entry) }
{
    match advance(&mut machine.scope, listed(cycle.behind)) {
        Front::Wrong => Ok(Some(Next::Stops(Shown::Wrong))),
        Front::Done => Ok(None),
        Front::Stays(Action::Continue, _) => {
            machine.actions = &[];
            Ok(Some(Next::Goes))
        }
        Front::Stays(action, rest) => {
            let next = begin(machine, Left::Behind(cycle), cycle.bound, action, rest)?;
            Ok(Some(next))
        }
    }
}

/// A loop whose body is done.
pub fn after_body<'a>(machine: &mut Machine<'a>, cycle: Cycle<'a>) -> Result<Next, NoMemory>
    ensures meaning { IfOk result (ReachesRest machine.old machine.new (behind_of_loop machine.old cycle.entry)) }
    ensures cost { IfOk result (RestCostsAtMost machine.old machine.new (loop_behind_cost machine.old cycle.entry)) }
{
    match behind_turn(machine, cycle)? {
        Some(next) => Ok(next),
        None => turn(machine, cycle),
    }
}
