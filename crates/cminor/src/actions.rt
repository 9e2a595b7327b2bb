//! Actions lowered (Leroy 2009, section 3.1). What calls itself does so at most as often as an action is high.

ghost use Rattle.std.specs.Prelude.{◌≡◌, All, IfOk, map};
ghost use Rattle.c_program.specs.Trees as T;
ghost use Rattle.c_program.specs.Views.{action_tree, actions_tree};
ghost use Rattle.cminor_syntax.specs.Fits.{StatementFits};
ghost use Rattle.cminor_syntax.specs.Views.{statement_tree};
ghost use Rattle.cminor_lowering.specs.Actions.{low_action};

use crate::lower_term;
use crate::parts::{boxed, turns, update};
use crate::sequences::sequence_of;
use crate::values::lower_given;
use c_program::Action;
use cminor_syntax::Statement;
use lang_base::NoMemory;
use lang_helpers::beside;
use std::alloc::Global;

/// Where a sequence is in range, so is each of what it does.
fn are_in_range(spare: u16, actions: &[Action])
    requires { StatementFits 65536 (low_action spare (T.Sequence (actions_tree actions.now))) }
    ensures { All (λ a. StatementFits 65536 (low_action spare (action_tree a))) actions.now }
{}

/// The statement that an action stands for. Each number in it has space in its field.
#[cycle(lowering)]
fn lower_action(alloc: Global, spare: u16, action: &Action) -> Result<Statement, NoMemory>
    requires { StatementFits 65536 (low_action spare (action_tree action.now)) }
    ensures { IfOk result (λ s. statement_tree s ≡ low_action spare (action_tree action.now)) }
{
    match action {
        Action::Nothing | Action::Declare(_) => Ok(Statement::Skip),
        Action::Sequence(all) => {
            let all = all.as_slice();
            are_in_range(spare, all);
            let lowered = lower_actions(alloc, spare, all)?;
            sequence_of(alloc, lowered)
        }
        Action::Give(target, value) => lower_given(alloc, spare, *target, value),
        Action::Store(global, index, word) => {
            let index = lower_term(alloc, index)?;
            let (index, word) = beside(index, lower_term(alloc, word))?;
            Ok(Statement::Store(*global as u16, index, word))
        }
        Action::Update(global, index, op, word) => {
            let index = lower_term(alloc, index)?;
            let (index, word) = beside(index, lower_term(alloc, word))?;
            update(alloc, spare, *global as u16, index, *op, word)
        }
        Action::If(condition, then, other) => {
            let condition = lower_term(alloc, condition)?;
            let (condition, then) = beside(condition, lower_boxed(alloc, spare, then))?;
            let (parts, other) = beside((condition, then), lower_boxed(alloc, spare, other))?;
            let (condition, then) = parts;
            Ok(Statement::If(condition, then, other))
        }
        Action::Loop(condition, body, behind) => {
            let condition = lower_term(alloc, condition)?;
            let (condition, body) = beside(condition, lower_action(alloc, spare, body))?;
            let (parts, behind) = beside((condition, body), lower_action(alloc, spare, behind))?;
            let (condition, body) = parts;
            turns(alloc, condition, body, behind)
        }
        Action::Break => Ok(Statement::Exit(1)),
        Action::Continue => Ok(Statement::Exit(0)),
        Action::Leave => Ok(Statement::Return(None)),
    }
}

/// The statement that an action stands for, in a box.
#[cycle(lowering)]
fn lower_boxed(alloc: Global, spare: u16, action: &Action) -> Result<Box<Statement>, NoMemory>
    requires { StatementFits 65536 (low_action spare (action_tree action.now)) }
    ensures { IfOk result (λ b. statement_tree b.value ≡ low_action spare (action_tree action.now)) }
{
    boxed(alloc, lower_action(alloc, spare, action)?)
}

/// The statements that some actions stand for.
#[cycle(lowering)]
pub fn lower_actions(
    alloc: Global,
    spare: u16,
    actions: &[Action],
) -> Result<Vec<Statement>, NoMemory>
    requires { All (λ a. StatementFits 65536 (low_action spare (action_tree a))) actions.now }
    ensures { IfOk result (λ ss. map statement_tree ss.items ≡ map (λ a. low_action spare (action_tree a)) actions.now) }
{
    let mut lowered = Vec::new(alloc);
    for action in actions {
        lowered.push(lower_action(alloc, spare, action)?)?;
    }
    Ok(lowered)
}
