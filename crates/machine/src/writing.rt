//! Writers of plain instructions and tests: each appends the text.

ghost use Rattle.std.specs.Prelude.{◌≡◌, ◌∷◌};
ghost use Rattle.lang_base.specs.Texts.{Appends};
ghost use Rattle.machine.specs.Spelling.{arguments_text, test_text, act_code, act_body};

use crate::act::Act;
use crate::arguments::Arguments;
use crate::test::Test;
use lang_base::{NoMemory, push_byte, push_u16, push_u32};
use locations::push_value;

fn push_arguments(out: &mut Vec<u8>, arguments: &Arguments) -> Result<(), NoMemory>
    ensures { Appends result (arguments_text arguments.now) out.old.items out.new.items }
{
    match *arguments {
        Arguments::One(first) => push_byte(out, first),
        Arguments::Two(first, second) => {
            push_byte(out, first)?;
            push_byte(out, second)
        }
    }
}

/// What a branch asks.
pub fn push_test(out: &mut Vec<u8>, test: &Test) -> Result<(), NoMemory>
    ensures { Appends result (test_text test.now) out.old.items out.new.items }
{
    push_byte(out, test.condition.code())?;
    push_arguments(out, &test.arguments)
}

/// The code of a plain instruction.
fn code_of(act: &Act) -> u8
    ensures { result ≡ act_code act.now }
{
    match act {
        Act::Constant { .. } => 1,
        Act::Operate { .. } => 3,
        Act::Load { .. } => 4,
        Act::Store { .. } => 5,
        Act::Put { .. } => 7,
    }
}

/// What follows the code of a plain instruction.
fn push_body(out: &mut Vec<u8>, act: &Act) -> Result<(), NoMemory>
    ensures { Appends result (act_body act.now) out.old.items out.new.items }
{
    match act {
        Act::Constant { target, word } => {
            push_byte(out, *target)?;
            push_u32(out, *word)
        }
        Act::Operate {
            op,
            target,
            arguments,
        } => {
            push_byte(out, op.code())?;
            push_byte(out, *target)?;
            push_arguments(out, arguments)
        }
        Act::Load {
            target,
            global,
            index,
        } => {
            push_byte(out, *target)?;
            push_u16(out, *global)?;
            push_byte(out, *index)
        }
        Act::Store {
            global,
            index,
            source,
        } => {
            push_u16(out, *global)?;
            push_byte(out, *index)?;
            push_byte(out, *source)
        }
        Act::Put { source, target } => {
            push_byte(out, *source)?;
            push_value(out, *target)
        }
    }
}

/// A plain instruction: its code, and what follows that.
pub fn push_act(out: &mut Vec<u8>, act: &Act) -> Result<(), NoMemory>
    ensures { Appends result (act_code act.now ∷ act_body act.now) out.old.items out.new.items }
{
    push_byte(out, code_of(act))?;
    push_body(out, act)
}
