//! The cells of globals.

ghost use Rattle.x86_state.specs.State.{word, does};
ghost use Rattle.x86.specs.Reaching.{loaded, stored};
ghost use Rattle.x86.specs.Runs.{Steps, HasNext};

use crate::moving::{give, go_on};
use crate::outcome::Outcome;
use crate::running::Running;
use x86_syntax::Register;

pub(crate) fn load(run: &mut Running, target: Register, global: u16, cell: u32) -> Outcome
    requires { HasNext run.old }
    ensures { Steps (λ s. does (loaded target global cell s)) run.old result run.new }
{
    let number = usize::from(global);
    if number >= run.globals.len() {
        return Outcome::Stuck;
    }
    match run.globals[number].get(cell) {
        None => Outcome::Stuck,
        Some(word) => give(run, target, word),
    }
}

pub(crate) fn store(run: &mut Running, global: u16, cell: u32, source: Register) -> Outcome
    requires { HasNext run.old }
    ensures { Steps (λ s. does (stored global cell source s)) run.old result run.new }
{
    let number = usize::from(global);
    if number >= run.globals.len() {
        return Outcome::Stuck;
    }
    let word = run.registers.word(source);
    if run.globals[number].set(cell, word) {
        go_on(run)
    } else {
        Outcome::Stuck
    }
}

/// Reads the cell that a register names.
pub(crate) fn load_by(run: &mut Running, target: Register, global: u16, index: Register) -> Outcome
    requires { HasNext run.old }
    ensures { Steps (λ s. does (loaded target global (word index s) s)) run.old result run.new }
{
    let cell = run.registers.word(index);
    load(run, target, global, cell)
}

/// Writes the cell that a register names.
pub(crate) fn store_by(run: &mut Running, global: u16, index: Register, source: Register) -> Outcome
    requires { HasNext run.old }
    ensures { Steps (λ s. does (stored global (word index s) source s)) run.old result run.new }
{
    let cell = run.registers.word(index);
    store(run, global, cell, source)
}
