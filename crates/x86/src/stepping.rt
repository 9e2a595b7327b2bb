//! One step.

ghost use Rattle.std.specs.Prelude.{IfOk};
ghost use Rattle.x86.specs.Meaning.{performs, next};
ghost use Rattle.x86.specs.Runs.{StepsFrom, HasNext};

use crate::comparing::{compare, compare_with, flag};
use crate::drawing::{grow, print};
use crate::framing::{go_if_room, shrink};
use crate::jumping::{jump, jump_if, stop_if};
use crate::leaving::{call, go_back};
use crate::moving::{copy, give, go_on, keep, take};
use crate::operating::{
    divide_by, divide_unsigned_by, do_to, do_with, extend, shift_by, shift_by_ecx, turn_round,
};
use crate::outcome::Outcome;
use crate::reaching::{load, load_by, store, store_by};
use crate::running::Running;
use lang_base::{Named, NoMemory};
use x86_syntax::{Function, Instruction};

/// Does an instruction of this code.
fn perform(
    run: &mut Running,
    functions: &[Named<Function>],
    code: &[Instruction],
    junk: &[u32],
    room: Option<usize>,
    instruction: Instruction,
) -> Result<Outcome, NoMemory>
    requires { HasNext run.old }
    ensures { IfOk result (StepsFrom junk.now (performs functions.now room code.now instruction) run.old run.new) }
{
    Ok(match instruction {
        Instruction::Label { .. } | Instruction::Skip => go_on(run),
        Instruction::Copy { target, source } => copy(run, target, source),
        Instruction::Set { target, word } => give(run, target, word),
        Instruction::Take { target, cell } => take(run, target, cell),
        Instruction::Keep { cell, source } => keep(run, cell, source),
        Instruction::Do { op, target, source } => do_to(run, op, target, source),
        Instruction::DoWith { op, target, word } => do_with(run, op, target, word),
        Instruction::Turn { op, target } => turn_round(run, op, target),
        Instruction::Shift { op, target, count } => shift_by(run, op, target, count),
        Instruction::ShiftBy { op, target } => shift_by_ecx(run, op, target),
        Instruction::Extend => extend(run),
        Instruction::Divide { divisor } => divide_by(run, divisor),
        Instruction::DivideU { divisor } => divide_unsigned_by(run, divisor),
        Instruction::Compare { left, right } => compare(run, left, right),
        Instruction::CompareWith { left, word } => compare_with(run, left, word),
        Instruction::Flag { condition, target } => flag(run, condition, target),
        Instruction::Jump { label } => jump(run, code, label),
        Instruction::JumpIf { condition, label } => jump_if(run, code, condition, label),
        Instruction::Stop => Outcome::Stops,
        Instruction::StopIf { condition } => stop_if(run, condition),
        Instruction::Load {
            target,
            global,
            index,
        } => load_by(run, target, global, index),
        Instruction::Store {
            global,
            index,
            source,
        } => store_by(run, global, index, source),
        Instruction::LoadAt {
            target,
            global,
            cell,
        } => load(run, target, global, cell),
        Instruction::StoreAt {
            global,
            cell,
            source,
        } => store(run, global, cell, source),
        Instruction::Call { function } => return call(run, functions, function),
        Instruction::Return => go_back(run),
        Instruction::Room => go_if_room(run, room),
        Instruction::Grow { count } => return grow(run, junk, count),
        Instruction::Shrink { count } => shrink(run, count),
        Instruction::Put => return print(run, junk),
    })
}

/// Does the instruction at which the run stands.
#[tactic(auto, unfolding(crate::specs::Meaning::next))]
pub(crate) fn step(
    run: &mut Running,
    functions: &[Named<Function>],
    junk: &[u32],
    room: Option<usize>,
) -> Result<Outcome, NoMemory>
    ensures { IfOk result (StepsFrom junk.now (next functions.now room) run.old run.new) }
{
    if run.function >= functions.len() {
        return Ok(Outcome::Stuck);
    }
    let code = functions[run.function].function.code.as_slice();
    if run.place >= code.len() {
        return Ok(Outcome::Stuck);
    }
    perform(run, functions, code, junk, room, code[run.place])
}
