//! What is true of each action in memory: its constants are words of 32 bits, and the length of each sequence is one of 64.

ghost use Rattle.std.specs.Prelude.{◌<◌, All};
ghost use Rattle.c_program.specs.Views.{action_tree, actions_tree, function_tree};
ghost use Rattle.cminor_lowering.specs.Held.{IsHeld, action_count, action_limit, IsHeldFunction};

use crate::words::{term_words, value_words};
use c_program::{Action, Function};

/// A sequence in memory has a length.
#[tactic(auto, using(crate::proofs::Rows::counted))]
fn has_length(actions: &[Action])
    ensures { action_count (actions_tree actions.now) < action_limit }
{
    let _length = actions.len();
}

/// What is true of an action. What calls itself does so at most as often as the action is high.
#[cycle(walking)]
fn action_held(action: &Action)
    ensures { IsHeld (action_tree action.now) }
{
    match action {
        Action::Nothing | Action::Declare(_) | Action::Break | Action::Continue | Action::Leave =>
            {}
        Action::Sequence(all) => {
            let all = all.as_slice();
            has_length(all);
            actions_held(all);
        }
        Action::Give(_, value) => value_words(value),
        Action::Store(_, index, word) | Action::Update(_, index, _, word) => {
            term_words(index);
            term_words(word);
        }
        Action::If(condition, then, other) => {
            term_words(condition);
            action_held(then);
            action_held(other);
        }
        Action::Loop(condition, body, behind) => {
            term_words(condition);
            action_held(body);
            action_held(behind);
        }
    }
}

#[cycle(walking)]
fn actions_held(actions: &[Action])
    ensures { All (λ a. IsHeld (action_tree a)) actions.now }
{
    for action in actions {
        action_held(action);
    }
}

/// What is true of each function in memory; the time is linear in it.
pub fn function_held(function: &Function)
    ensures { IsHeldFunction (function_tree function.now) }
{
    let body = function.body.as_slice();
    has_length(body);
    actions_held(body);
}
