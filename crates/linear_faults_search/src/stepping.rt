//! One step of a run.

ghost use Rattle.std.specs.Prelude.{◌≡◌, ◌+◌, ◌<◌, Some, IfOk};
ghost use Rattle.machine.specs.Acts.{does, holds};
ghost use Rattle.machine.specs.Data.{moved};
ghost use Rattle.machine.specs.Fits.{ActFits, TestFits};
ghost use Rattle.machine.specs.Frames.{goes_to};
ghost use Rattle.linear_language.specs.Meaning.{branches, jumps};
ghost use Rattle.linear_run_decoded.specs.Made.{IsLow, IsMade};
ghost use Rattle.linear_run_decoded.specs.Plain.{plain, plain_of};
ghost use Rattle.linear_faults_search.specs.Aims.{aim, AreMade};
ghost use Rattle.linear_faults_run.specs.Steps.{code_step, Follows, Stays, Steps, StepsBy};

use crate::aims::aim_of;
use lang_base::{Named, NoMemory};
use linear_faults_run::{Outcome, Run, Step, ask, call, come_back, do_act, move_word};
use linear_language::{Function, Instruction};
use linear_run_decoded::Flat;
use locations::Move;
use machine::{Act, Test};
use std::alloc::Global;

/// A plain instruction.
fn act_here(act: Act, below: usize, run: &mut Run) -> Step
    requires place { below ≡ run.old.place + 1 }
    requires fits { ActFits act }
    ensures step { Follows (λ s. goes_to s (s.place + 1) (does act s.here)) run.old result run.new }
    ensures stays { Stays result run.old run.new }
{
    match do_act(act, &mut run.words.registers, &mut run.globals) {
        Outcome::Done => {
            run.place = below;
            Step::Goes
        }
        Outcome::Printed(byte) => {
            run.place = below;
            Step::Prints(byte)
        }
        Outcome::Failed => Step::Fails,
    }
}

/// A copy of a word.
fn copy_here(step: Move, below: usize, run: &mut Run) -> Step
    requires { below ≡ run.old.place + 1 }
    ensures step { Follows (λ s. goes_to s (s.place + 1) (Some (moved step s.here))) run.old result run.new }
    ensures stays { Stays result run.old run.new }
{
    move_word(&mut run.words, step);
    run.place = below;
    Step::Goes
}

/// Goes on at a place, if there is one.
fn jump(to: Option<usize>, run: &mut Run) -> Step
    ensures step { Follows (λ s. jumps s to) run.old result run.new }
    ensures stays { Stays result run.old run.new }
{
    match to {
        Some(place) => {
            run.place = place;
            Step::Goes
        }
        None => Step::Fails,
    }
}

/// Goes on where a test says.
fn branch_here(test: Test, flat: &Flat, below: usize, run: &mut Run) -> Step
    requires place { below ≡ run.old.place + 1 }
    requires fits { TestFits test }
    ensures step { Follows (λ s. branches s (aim (plain flat.now)) (holds test s.here)) run.old result run.new }
    ensures stays { Stays result run.old run.new }
{
    match ask(test, &run.words.registers) {
        None => Step::Fails,
        Some(true) => jump(aim_of(flat), run),
        Some(false) => {
            run.place = below;
            Step::Goes
        }
    }
}

/// A label, which does nothing.
fn pass_by(below: usize, run: &mut Run) -> Step
    requires { below ≡ run.old.place + 1 }
    ensures step { Follows (λ s. goes_to s (s.place + 1) (Some s.here)) run.old result run.new }
    ensures stays { Stays result run.old run.new }
{
    run.place = below;
    Step::Goes
}

/// An instruction of this code.
fn do_one(
    alloc: Global,
    functions: &[Named<Function>],
    code: &[Instruction],
    instruction: &Instruction,
    flat: &Flat,
    below: usize,
    run: &mut Run,
) -> Result<Step, NoMemory>
    requires place { below ≡ run.old.place + 1 }
    requires low { IsLow instruction.now }
    requires flat { plain flat.now ≡ plain_of code.now instruction.now }
    ensures step { IfOk result (λ step. StepsBy functions.now code.now instruction.now run.old step run.new) }
    ensures stays { IfOk result (λ step. Stays step run.old run.new) }
{
    let _ = code.len();
    match instruction {
        Instruction::Do { act } => Ok(act_here(*act, below, run)),
        Instruction::Copy { step } => Ok(copy_here(*step, below, run)),
        Instruction::Call {
            function,
            arguments,
            target,
        } => call(alloc, functions, run, *function, arguments, *target, below),
        Instruction::Branch { test, .. } => Ok(branch_here(*test, flat, below, run)),
        Instruction::Return { value } => Ok(come_back(run, *value)),
        Instruction::Label { .. } => Ok(pass_by(below, run)),
        Instruction::Goto { .. } => Ok(jump(aim_of(flat), run)),
    }
}

/// A step in a function that is there, whose code was made flat.
fn step_in(
    alloc: Global,
    functions: &[Named<Function>],
    function: &Function,
    flats: &[Flat],
    run: &mut Run,
) -> Result<Step, NoMemory>
    requires { IsMade flats.now function.now }
    ensures step { IfOk result (λ step. Follows (code_step functions.now function.now.code) run.old step run.new) }
    ensures stays { IfOk result (λ step. Stays step run.old run.new) }
{
    let code = function.code().as_slice();
    let place = run.place;
    if place >= code.len() {
        return Ok(Step::Fails);
    }
    do_one(
        alloc,
        functions,
        code,
        &code[place],
        &flats[place],
        place + 1,
        run,
    )
}

/// One step.
pub(crate) fn step(
    alloc: Global,
    functions: &[Named<Function>],
    flats: &[Vec<Flat>],
    run: &mut Run,
) -> Result<Step, NoMemory>
    requires { AreMade flats.now functions.now }
    ensures step { IfOk result (λ step. Steps functions.now run.old step run.new) }
    ensures stays { IfOk result (λ step. Stays step run.old run.new) }
{
    let number = run.function;
    if number >= functions.len() {
        return Ok(Step::Fails);
    }
    step_in(
        alloc,
        functions,
        &functions[number].function,
        &flats[number],
        run,
    )
}
