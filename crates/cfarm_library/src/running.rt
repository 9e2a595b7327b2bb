//! The calls that run something.

ghost use Rattle.std.specs.Prelude.{◌≡◌};
ghost use Rattle.cfarm_library_answers.specs.Outcomes.{Checked, Executed, Interpreted};
ghost use Rattle.cfarm_library.specs.Flags.{ShownAs, given};
ghost use Rattle.cfarm_library.specs.Put.{Puts};

use crate::answering::{CfarmAnswer, is_long, passed, put};
use cfarm_library_answers::{check, draw, exec, interpret, no_memory, simulate};
use std::alloc::Global;

fn expected_of(ends: u32, value: i32) -> Option<i32>
    ensures { result ≡ given ends value }
{
    match ends {
        0 => None,
        _ => Some(value),
    }
}

/// `check`.
#[unsafe(no_mangle)]
pub extern "C" fn cfarm_check(alloc: Global, text: &[u8], answer: &mut CfarmAnswer) -> u32
    ensures { Puts (Checked text.now) result answer.new }
{
    if is_long(text) {
        return put(no_memory(alloc), answer);
    }
    put(check(alloc, passed(text)), answer)
}

/// `interpret`, with calls as deep as this at most.
#[unsafe(no_mangle)]
pub extern "C" fn cfarm_interpret(
    alloc: Global,
    text: &[u8],
    depth: u32,
    answer: &mut CfarmAnswer,
) -> u32
    ensures { Puts (Interpreted text.now depth) result answer.new }
{
    if is_long(text) {
        return put(no_memory(alloc), answer);
    }
    put(interpret(alloc, passed(text), depth), answer)
}

/// `exec`, within this many blocks; where `ends` is not 0 the program is to end with this value.
#[unsafe(no_mangle)]
pub extern "C" fn cfarm_exec(
    alloc: Global,
    program: &[u8],
    limit: u64,
    ends: u32,
    value: i32,
    answer: &mut CfarmAnswer,
) -> u32
    ensures { Puts (Executed program.now limit (given ends value)) result answer.new }
{
    if is_long(program) {
        return put(no_memory(alloc), answer);
    }
    put(
        exec(alloc, passed(program), limit, expected_of(ends, value)),
        answer,
    )
}

/// `sim`, drawn where `drawing` is not 0.
#[unsafe(no_mangle)]
pub extern "C" fn cfarm_simulate(
    alloc: Global,
    schedule: &[u8],
    drawing: u32,
    answer: &mut CfarmAnswer,
) -> u32
    ensures { Puts (ShownAs drawing schedule.now) result answer.new }
{
    if is_long(schedule) {
        return put(no_memory(alloc), answer);
    }
    let is_drawn = drawing != 0;
    if is_drawn {
        return put(draw(alloc, passed(schedule)), answer);
    }
    put(simulate(alloc, passed(schedule)), answer)
}
