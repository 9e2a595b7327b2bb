//! Moves between registers and the stack.

ghost use Rattle.x86_state.specs.State.{put, goes_on, does};
ghost use Rattle.x86.specs.Moves.{copied, taken, kept_from};
ghost use Rattle.x86.specs.Runs.{Steps, HasNext};

use crate::outcome::Outcome;
use crate::running::Running;
use x86_syntax::Register;

/// Goes on below.
pub(crate) fn go_on(run: &mut Running) -> Outcome
    requires { HasNext run.old }
    ensures { Steps goes_on run.old result run.new }
{
    run.place += 1;
    Outcome::Goes
}

/// Writes a register.
pub(crate) fn give(run: &mut Running, target: Register, word: u32) -> Outcome
    requires { HasNext run.old }
    ensures { Steps (λ s. goes_on (put target word s)) run.old result run.new }
{
    run.registers.put(target, word);
    go_on(run)
}

/// Copies a register.
pub(crate) fn copy(run: &mut Running, target: Register, source: Register) -> Outcome
    requires { HasNext run.old }
    ensures { Steps (λ s. goes_on (copied target source s)) run.old result run.new }
{
    let word = run.registers.word(source);
    give(run, target, word)
}

/// Reads a cell of the stack.
pub(crate) fn take(run: &mut Running, target: Register, cell: u16) -> Outcome
    requires { HasNext run.old }
    ensures { Steps (λ s. does (taken target cell s)) run.old result run.new }
{
    match run.stack.word(cell) {
        None => Outcome::Stuck,
        Some(word) => give(run, target, word),
    }
}

/// Writes a cell of the stack.
pub(crate) fn keep(run: &mut Running, cell: u16, source: Register) -> Outcome
    requires { HasNext run.old }
    ensures { Steps (λ s. does (kept_from cell source s)) run.old result run.new }
{
    let word = run.registers.word(source);
    if run.stack.keep(cell, word) {
        go_on(run)
    } else {
        Outcome::Stuck
    }
}
