//! Comparisons, and what is made of them.

ghost use Rattle.std.specs.Prelude.{◌≡◌, ℕ, ◌≤◌, List};
ghost use Rattle.x86_state.specs.State.{word, goes_on, does};
ghost use Rattle.x86_state.specs.Tables.{with_low_byte};
ghost use Rattle.x86.specs.Comparing.{compared, asked, with_flag, flagged};
ghost use Rattle.x86.specs.Runs.{Steps, HasNext, state_of};

use crate::moving::{give, go_on};
use crate::outcome::Outcome;
use crate::running::Running;
use x86_state::holds;
use x86_syntax::{Condition, Register};

pub(crate) fn compare_with(run: &mut Running, left: Register, right_word: u32) -> Outcome
    requires { HasNext run.old }
    ensures { Steps (λ s. goes_on (compared (word left s) right_word s)) run.old result run.new }
{
    run.flags = Some((run.registers.word(left), right_word));
    go_on(run)
}

pub(crate) fn compare(run: &mut Running, left: Register, right: Register) -> Outcome
    requires { HasNext run.old }
    ensures { Steps (λ s. goes_on (compared (word left s) (word right s) s)) run.old result run.new }
{
    let right_word = run.registers.word(right);
    compare_with(run, left, right_word)
}

/// Whether the condition holds of what was compared last.
pub(crate) fn ask(run: &Running, condition: Condition) -> Option<bool>
    ensures { (words : List ℕ) → result ≡ asked condition (state_of words run.now) }
{
    match run.flags {
        None => None,
        Some((left, right)) => Some(holds(condition, left, right)),
    }
}

/// A word with another low byte.
fn in_low_byte(word: u32, byte: u32) -> u32
    requires { byte ≤ 1 }
    ensures { result ≡ with_low_byte word byte }
{
    word - word % 256 + byte
}

/// The truth of an answer goes to the low byte of eax, and to the target.
fn give_flag(run: &mut Running, target: Register, answer: bool) -> Outcome
    requires { HasNext run.old }
    ensures { Steps (λ s. goes_on (with_flag target s answer)) run.old result run.new }
{
    let byte = u32::from(answer);
    let scratch = in_low_byte(run.registers.word(Register::Eax), byte);
    run.registers.put(Register::Eax, scratch);
    give(run, target, byte)
}

/// The truth of the condition goes to the low byte of eax, and to the target.
pub(crate) fn flag(run: &mut Running, condition: Condition, target: Register) -> Outcome
    requires { HasNext run.old }
    ensures { Steps (λ s. does (flagged condition target s)) run.old result run.new }
{
    match ask(run, condition) {
        None => Outcome::Stuck,
        Some(answer) => give_flag(run, target, answer),
    }
}
