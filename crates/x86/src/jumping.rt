//! Jumps and stops.

ghost use Rattle.std.specs.Prelude.{◌≡◌};
ghost use Rattle.x86_syntax.specs.Labels.{place_of, is_label, label_of};
ghost use Rattle.x86_state.specs.State.{Stops};
ghost use Rattle.x86.specs.Comparing.{asked};
ghost use Rattle.x86.specs.Jumping.{jumps, takes_if};
ghost use Rattle.x86.specs.Runs.{Steps, HasNext};

use crate::comparing::ask;
use crate::moving::go_on;
use crate::outcome::Outcome;
use crate::running::Running;
use x86_syntax::{Condition, Instruction};

#[tactic(auto, unfolding(x86_syntax::specs::Labels::label_of))]
fn stands_here(instruction: &Instruction, label: u16) -> bool
    ensures { result ≡ is_label label (label_of instruction.now) }
{
    match instruction {
        Instruction::Label { label: other } => *other == label,
        _ => false,
    }
}

/// The place of a label, if it stands there.
fn find(code: &[Instruction], label: u16) -> Option<usize>
    ensures { result ≡ place_of label code.now }
{
    for (place, instruction) in code.iter().enumerate() {
        if stands_here(instruction, label) {
            return Some(place);
        }
    }
    None
}

pub(crate) fn jump(run: &mut Running, code: &[Instruction], label: u16) -> Outcome
    ensures { Steps (jumps (place_of label code.now)) run.old result run.new }
{
    match find(code, label) {
        None => Outcome::Stuck,
        Some(place) => {
            run.place = place;
            Outcome::Goes
        }
    }
}

pub(crate) fn jump_if(
    run: &mut Running,
    code: &[Instruction],
    condition: Condition,
    label: u16,
) -> Outcome
    requires { HasNext run.old }
    ensures { Steps (λ s. takes_if (asked condition s) (jumps (place_of label code.now) s) s) run.old result run.new }
{
    match ask(run, condition) {
        None => Outcome::Stuck,
        Some(true) => jump(run, code, label),
        Some(false) => go_on(run),
    }
}

pub(crate) fn stop_if(run: &mut Running, condition: Condition) -> Outcome
    requires { HasNext run.old }
    ensures { Steps (λ s. takes_if (asked condition s) Stops s) run.old result run.new }
{
    match ask(run, condition) {
        None => Outcome::Stuck,
        Some(true) => Outcome::Stops,
        Some(false) => go_on(run),
    }
}
