//! Readers of the parts of a function. Each is one function on lists, which says the value and the
//! bytes behind it, or the first fault.

ghost use Rattle.lang_base.specs.Reading.{Reads, items_of};
ghost use Rattle.linear_language.specs.Flags.{Flags};
ghost use Rattle.linear_language.specs.Labels.{labels_of};
ghost use Rattle.linear_language.specs.Reading.{instruction, calling, placed, code, parts, function};

use crate::function::Function;
use crate::instruction::Instruction;
use crate::labels::{no_labels, note};
use lang_base::{FormError, Row, read_byte, read_u16, read_u32};
use lang_helpers::{ReadOne, are_bytes, read_so_many};
use locations::{Location, read_call, read_frame, read_move, read_value};
use machine::{read_act, read_test};
use std::alloc::Global;

#[tactic(auto, unfolding(crate::specs::Reading::calling))]
fn read_calling(alloc: Global, slots: u32, bytes: &mut &[u8]) -> Result<Instruction, FormError>
    ensures { Reads (calling slots bytes.old.now) result bytes.new.now }
{
    let (function, (arguments, target)) = read_call(alloc, slots, bytes)?;
    Ok(Instruction::Call {
        function,
        arguments,
        target,
    })
}

/// An instruction among so many slots.
#[tactic(auto, unfolding(crate::specs::Reading::instruction))]
fn read_instruction(alloc: Global, slots: u32, bytes: &mut &[u8]) -> Result<Instruction, FormError>
    ensures { Reads (instruction slots bytes.old.now) result bytes.new.now }
{
    match read_byte(bytes)? {
        2 => Ok(Instruction::Copy {
            step: read_move(slots, bytes)?,
        }),
        6 => read_calling(alloc, slots, bytes),
        8 => {
            let test = read_test(bytes)?;
            let label = read_u16(bytes)?;
            Ok(Instruction::Branch { test, label })
        }
        9 => Ok(Instruction::Return {
            value: read_value(bytes)?,
        }),
        10 => Ok(Instruction::Label {
            label: read_u16(bytes)?,
        }),
        11 => Ok(Instruction::Goto {
            label: read_u16(bytes)?,
        }),
        code => Ok(Instruction::Do {
            act: read_act(code, bytes)?,
        }),
    }
}

/// Reads instructions among so many slots. The flags say which labels stand before, and none stands
/// twice.
#[derive(Drop)]
struct Instructions {
    slots: u32,
    flags: Vec<bool>,
}

impl ReadOne for Instructions {
    type Item = Instruction;

    ghost part = { λ reader. placed reader.slots };

    ghost keeps = { λ reader before. Flags reader.flags.items (labels_of before) };

    #[tactic(auto, unfolding(crate::specs::Reading::placed))]
    fn read(
        &mut self,
        alloc: Global,
        _before: &[Instruction],
        bytes: &mut &[u8],
    ) -> Result<Instruction, FormError> {
        let instruction = read_instruction(alloc, self.slots, bytes)?;
        if note(&mut self.flags, &instruction) {
            Ok(instruction)
        } else {
            Err(FormError::NotCanonical)
        }
    }
}

/// The number of instructions, and the instructions.
#[tactic(auto, unfolding(crate::specs::Reading::code))]
fn read_code(alloc: Global, slots: u16, bytes: &mut &[u8]) -> Result<Vec<Instruction>, FormError>
    ensures { Reads (code slots bytes.old.now) (items_of result) bytes.new.now }
{
    let count = read_u32(bytes)?;
    let reader = Instructions {
        slots: u32::from(slots),
        flags: no_labels(alloc)?,
    };
    read_so_many(alloc, reader, count, bytes)
}

/// The parameters, the slots, and the code.
#[tactic(auto, unfolding(crate::specs::Reading::parts))]
fn read_parts(
    alloc: Global,
    bytes: &mut &[u8],
) -> Result<((Row<Location>, u16), Row<Instruction>), FormError>
    ensures { Reads (parts bytes.old.now) result bytes.new.now }
{
    let frame = read_frame(alloc, bytes)?;
    let code = read_code(alloc, frame.1, bytes)?;
    Ok((frame, Row::from_vec(code)))
}

/// A function, its tag first.
#[tactic(auto, unfolding(crate::specs::Reading::function))]
pub fn read_function(alloc: Global, bytes: &mut &[u8]) -> Result<Function, FormError>
    ensures { Reads (function bytes.old.now) result bytes.new.now }
{
    are_bytes(bytes);
    if read_byte(bytes)? != 4 {
        return Err(FormError::BadTag);
    }
    let ((parameters, slots), code) = read_parts(alloc, bytes)?;
    Ok(Function::new(parameters, slots, code))
}
