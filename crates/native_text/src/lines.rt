//! The lines of each instruction.

ghost use Rattle.lang_base.specs.Texts.{Appends};
ghost use Rattle.native_text.specs.Lines.{lines};
ghost use Rattle.x86_syntax.specs.declared.instruction.Instruction.TheVariants.{Flag, Room};

use crate::here::Here;
use crate::operand::Operand;
use crate::shapes::{push_label, push_one, push_plain, push_two};
use crate::words::Verb;
use lang_base::NoMemory;
use x86_syntax::{Condition, Instruction, Register};

/// A register becomes 1 or 0, by a condition.
fn push_flag(
    out: &mut Vec<u8>,
    here: &Here<'_>,
    condition: Condition,
    target: Register,
) -> Result<(), NoMemory>
    ensures { Appends result (lines here.now (Flag condition target)) out.old.items out.new.items }
{
    push_one(out, here, Verb::Sets(condition), Operand::Low)?;
    push_two(out, here, Verb::Widens, Operand::Low, Operand::Of(target))
}

/// The stack is to have room.
fn push_room(out: &mut Vec<u8>, here: &Here<'_>) -> Result<(), NoMemory>
    ensures { Appends result (lines here.now Room) out.old.items out.new.items }
{
    push_two(out, here, Verb::ComparesWide, Operand::Limit, Operand::Top)?;
    push_one(out, here, Verb::JumpsIf(Condition::Below), Operand::Full)
}

/// The lines of an instruction.
pub(crate) fn push_lines(
    out: &mut Vec<u8>,
    here: &Here<'_>,
    instruction: Instruction,
) -> Result<(), NoMemory>
    ensures { Appends result (lines here.now instruction) out.old.items out.new.items }
{
    use Operand::{At, Called, Cell, Cells, Count, Indexed, Of, Place, Printer, Top, Word, Wrong};
    match instruction {
        Instruction::Label { label } => push_label(out, here, label),
        Instruction::Skip => push_plain(out, Verb::Remark),
        Instruction::Copy { target, source } => {
            push_two(out, here, Verb::Moves, Of(source), Of(target))
        }
        Instruction::Set { target, word } => {
            push_two(out, here, Verb::Moves, Word(word), Of(target))
        }
        Instruction::Take { target, cell } => {
            push_two(out, here, Verb::Moves, Cell(cell), Of(target))
        }
        Instruction::Keep { cell, source } => {
            push_two(out, here, Verb::Moves, Of(source), Cell(cell))
        }
        Instruction::Do { op, target, source } => {
            push_two(out, here, Verb::Does(op), Of(source), Of(target))
        }
        Instruction::DoWith { op, target, word } => {
            push_two(out, here, Verb::Does(op), Word(word), Of(target))
        }
        Instruction::Turn { op, target } => push_one(out, here, Verb::Turns(op), Of(target)),
        Instruction::Shift { op, target, count } => {
            push_two(out, here, Verb::Shifts(op), Word(count), Of(target))
        }
        Instruction::ShiftBy { op, target } => {
            push_two(out, here, Verb::Shifts(op), Count, Of(target))
        }
        Instruction::Extend => push_plain(out, Verb::Extends),
        Instruction::Divide { divisor } => push_one(out, here, Verb::Divides, Of(divisor)),
        Instruction::DivideU { divisor } => push_one(out, here, Verb::DividesUnsigned, Of(divisor)),
        Instruction::Compare { left, right } => {
            push_two(out, here, Verb::Compares, Of(right), Of(left))
        }
        Instruction::CompareWith { left, word } => {
            push_two(out, here, Verb::Compares, Word(word), Of(left))
        }
        Instruction::Flag { condition, target } => push_flag(out, here, condition, target),
        Instruction::Jump { label } => push_one(out, here, Verb::Jumps, Place(label)),
        Instruction::JumpIf { condition, label } => {
            push_one(out, here, Verb::JumpsIf(condition), Place(label))
        }
        Instruction::Stop => push_one(out, here, Verb::Jumps, Wrong),
        Instruction::StopIf { condition } => push_one(out, here, Verb::JumpsIf(condition), Wrong),
        Instruction::Load {
            target,
            global,
            index,
        } => push_two(out, here, Verb::Moves, Indexed(global, index), Of(target)),
        Instruction::Store {
            global,
            index,
            source,
        } => push_two(out, here, Verb::Moves, Of(source), Indexed(global, index)),
        Instruction::LoadAt {
            target,
            global,
            cell,
        } => push_two(out, here, Verb::Moves, At(global, cell), Of(target)),
        Instruction::StoreAt {
            global,
            cell,
            source,
        } => push_two(out, here, Verb::Moves, Of(source), At(global, cell)),
        Instruction::Call { function } => push_one(out, here, Verb::Calls, Called(function)),
        Instruction::Return => push_plain(out, Verb::Returns),
        Instruction::Room => push_room(out, here),
        Instruction::Grow { count } => {
            push_two(out, here, Verb::SubtractsWide, Cells(count), Top)
        }
        Instruction::Shrink { count } => push_two(out, here, Verb::AddsWide, Cells(count), Top),
        Instruction::Put => push_one(out, here, Verb::Calls, Printer),
    }
}
