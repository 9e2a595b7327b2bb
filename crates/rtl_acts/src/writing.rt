//! Writers of the parts of a function: each appends the text.

ghost use Rattle.std.specs.Prelude.{◌≡◌, ◌≤◌, ◌∷◌, ◌++◌, length};
ghost use Rattle.lang_base.specs.Texts.{Appends};
ghost use Rattle.rtl_acts.specs.Fits.{parameter_limit, argument_limit};
ghost use Rattle.rtl_acts.specs.Spelling.{register_text, three_text, registers_text, target_text, arguments_text, test_text, act_code, act_body, frame_text};

use crate::act::Act;
use crate::arguments::Arguments;
use crate::register::Register;
use crate::test::Test;
use lang_base::{NoMemory, push_byte, push_u16, push_u32};
use machine::{Half, push_each};

/// The registers of a list, behind their number.
pub fn push_registers(out: &mut Vec<u8>, registers: &[Register]) -> Result<(), NoMemory>
    requires { length registers.now ≤ argument_limit }
    ensures { Appends result (registers_text registers.now) out.old.items out.new.items }
{
    push_byte(out, registers.len() as u8)?;
    push_each::<Half>(out, registers)
}

/// A register, or none.
pub fn push_target(out: &mut Vec<u8>, target: Option<Register>) -> Result<(), NoMemory>
    ensures { Appends result (target_text target) out.old.items out.new.items }
{
    match target {
        None => push_byte(out, 0),
        Some(register) => {
            push_byte(out, 1)?;
            push_u16(out, register)
        }
    }
}

/// One register or two.
pub fn push_arguments(out: &mut Vec<u8>, arguments: &Arguments) -> Result<(), NoMemory>
    ensures { Appends result (arguments_text arguments.now) out.old.items out.new.items }
{
    match *arguments {
        Arguments::One(first) => push_u16(out, first),
        Arguments::Two(first, second) => {
            push_u16(out, first)?;
            push_u16(out, second)
        }
    }
}

/// What a branch asks.
pub fn push_test(out: &mut Vec<u8>, test: &Test) -> Result<(), NoMemory>
    ensures { Appends result (test_text test.now) out.old.items out.new.items }
{
    push_byte(out, test.condition.code())?;
    push_arguments(out, &test.arguments)
}

/// The code of a plain instruction.
fn code_of(act: &Act) -> u8
    ensures { result ≡ act_code act.now }
{
    match act {
        Act::Nop => 0,
        Act::Constant { .. } => 1,
        Act::Move { .. } => 2,
        Act::Operate { .. } => 3,
        Act::Load { .. } => 4,
        Act::Store { .. } => 5,
        Act::Put { .. } => 7,
    }
}

/// Three numbers, one behind the other.
fn push_three(out: &mut Vec<u8>, first: u16, second: u16, third: u16) -> Result<(), NoMemory>
    ensures { Appends result (three_text first second third) out.old.items out.new.items }
{
    push_u16(out, first)?;
    push_u16(out, second)?;
    push_u16(out, third)
}

/// What follows the code of a plain instruction.
fn push_body(out: &mut Vec<u8>, act: &Act) -> Result<(), NoMemory>
    ensures { Appends result (act_body act.now) out.old.items out.new.items }
{
    match act {
        Act::Nop => Ok(()),
        Act::Constant { target, word } => {
            push_u16(out, *target)?;
            push_u32(out, *word)
        }
        Act::Move { target, source } => {
            push_u16(out, *target)?;
            push_u16(out, *source)
        }
        Act::Operate {
            op,
            target,
            arguments,
        } => {
            push_byte(out, op.code())?;
            push_u16(out, *target)?;
            push_arguments(out, arguments)
        }
        Act::Load {
            target,
            global,
            index,
        } => push_three(out, *target, *global, *index),
        Act::Store {
            global,
            index,
            source,
        } => push_three(out, *global, *index, *source),
        Act::Put { source, target } => {
            push_u16(out, *source)?;
            push_target(out, *target)
        }
    }
}

/// A plain instruction: its code, and what follows that.
pub fn push_act(out: &mut Vec<u8>, act: &Act) -> Result<(), NoMemory>
    ensures { Appends result (act_code act.now ∷ act_body act.now) out.old.items out.new.items }
{
    push_byte(out, code_of(act))?;
    push_body(out, act)
}

/// The parameters' registers, and the number of registers.
pub fn push_frame(out: &mut Vec<u8>, parameters: &[Register], count: u16) -> Result<(), NoMemory>
    requires { length parameters.now ≤ parameter_limit }
    ensures { Appends result (frame_text (parameters.now, count)) out.old.items out.new.items }
{
    push_registers(out, parameters)?;
    push_u16(out, count)
}
