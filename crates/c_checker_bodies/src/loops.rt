//! `for` and the turns of loops (C99 6.8.5).

ghost use Rattle.std.specs.Prelude.{◌≡◌, [], OnOk, IfOk, IfErr};
ghost use Rattle.c_syntax.specs.Views.{start_tree};
ghost use Rattle.c_program.specs.Trees as P;
ghost use Rattle.c_program.specs.Views.{term_tree, action_tree};
ghost use Rattle.c_checker_rules.specs.Told.{Tells};
ghost use Rattle.c_checker_rules.specs.Actions as A;
ghost use Rattle.c_checker_bodies.specs.Sources.{condition_term, step_tree};
ghost use Rattle.c_checker_bodies.specs.Holders.{do_action};
ghost use Rattle.c_checker_bodies.specs.ForSources.{started, turn_faults, head_faults, head_condition, head_step, for_tree};

use crate::here::Here;
use crate::parts::{check_condition, check_start, check_step, two};
use c_checker_rules::{CheckError, Meaning};
use c_checker_scopes::Scopes;
use c_program::{Action, Term};
use c_syntax::{Expression, ForStart, Set};
use lang_base::NoMemory;
use lang_helpers::{beside, boxes, ok};
use std::alloc::Global;

/// What stands in a `for` before its body: how it begins, its condition, and what is done behind each turn.
#[derive(Drop)]
pub(crate) struct Heads {
    pub(crate) first: Box<Action>,
    pub(crate) condition: Term,
    pub(crate) step: Action,
}

/// A loop with what is done in each turn and behind it.
pub(crate) fn repeated(
    alloc: Global,
    condition: Term,
    body: Action,
    behind: Action,
) -> Result<Action, NoMemory>
    ensures { IfOk result (λ a. action_tree a ≡ P.Loop (term_tree condition) (action_tree body) (action_tree behind)) }
{
    let (condition, (body, behind)) = ok!(beside(condition, boxes(alloc, body, behind)));
    Ok(Action::Loop(condition, body, behind))
}

/// What stands behind the body of a `do`: a false condition leaves the loop.
fn until(alloc: Global, condition: Term) -> Result<Box<Action>, NoMemory>
    ensures { IfOk result (λ b. action_tree b.value ≡ P.If (term_tree condition) P.Nothing P.Continue) }
{
    let both = boxes(alloc, Action::Nothing, Action::Continue);
    let (condition, (again, leaves)) = ok!(beside(condition, both));
    Ok(Box::new(alloc, Action::If(condition, again, leaves))?)
}

/// The `do` with this body and this condition.
pub(crate) fn do_of(alloc: Global, body: Box<Action>, condition: Term) -> Result<Action, NoMemory>
    ensures { IfOk result (λ a. action_tree a ≡ do_action body.value condition) }
{
    let (body, behind) = ok!(beside(body, until(alloc, condition)));
    Ok(Action::Loop(Term::Constant(1), body, behind))
}

impl Heads {
    /// The `for` with this body.
    pub(crate) fn around(self, alloc: Global, body: Action) -> Result<Action, NoMemory>
        ensures { IfOk result (λ a. action_tree a ≡ for_tree self.first.value self.condition body self.step) }
    {
        let Heads {
            first,
            condition,
            step,
        } = self;
        let turns = repeated(alloc, condition, body, step)?;
        two(alloc, Box::into_inner(first), turns)
    }
}

/// The condition of a `for`, and what is done behind each turn.
#[tactic(auto, using(c_checker_rules::proofs::Firsts::tells_front, c_checker_rules::proofs::Firsts::tells_behind))]
fn check_turns(
    alloc: Global,
    scope: &Scopes<Meaning>,
    condition: &Option<Expression>,
    step: &Option<Set>,
) -> Result<(Term, Action), CheckError>
    ensures ok { OnOk result (turn_faults scope.now condition.now step.now ≡ []) }
    ensures condition { IfOk result (λ t. term_tree t.0 ≡ condition_term scope.now condition.now) }
    ensures step { IfOk result (λ t. action_tree t.1 ≡ step_tree scope.now step.now) }
    ensures err { IfErr result (λ e. Tells e (turn_faults scope.now condition.now step.now)) }
{
    let condition = ok!(check_condition(alloc, scope, condition));
    beside(condition, check_step(alloc, scope, step))
}

/// What stands in a `for` before its body. What it declares is declared here.
#[tactic(auto, using(c_checker_rules::proofs::Firsts::tells_front, c_checker_rules::proofs::Firsts::tells_behind))]
pub(crate) fn check_heads(
    alloc: Global,
    depth: u32,
    here: &mut Here,
    start: &ForStart,
    condition: &Option<Expression>,
    step: &Option<Set>,
) -> Result<Heads, CheckError>
    ensures ok { OnOk result (head_faults depth here.old start.now condition.now step.now ≡ []) }
    ensures first { IfOk result (λ h. action_tree h.first.value ≡ A.start_action depth here.old (start_tree start.now)) }
    ensures condition { IfOk result (λ h. term_tree h.condition ≡ head_condition depth here.old start.now condition.now) }
    ensures step { IfOk result (λ h. action_tree h.step ≡ head_step depth here.old start.now step.now) }
    ensures here { OnOk result (here.new ≡ started depth here.old start.now) }
    ensures err { IfErr result (λ e. Tells e (head_faults depth here.old start.now condition.now step.now)) }
{
    let first = Box::new(alloc, ok!(check_start(alloc, depth, here, start)))?;
    let (condition, step) = ok!(check_turns(alloc, &here.scope, condition, step));
    Ok(Heads {
        first,
        condition,
        step,
    })
}
