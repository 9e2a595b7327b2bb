//! The calls that look at a program, and the version.

ghost use Rattle.std.specs.Prelude.{◌≡◌};
ghost use Rattle.cfarm_library_answers.specs.Outcomes.{FormedBy, Proven, Texted, Versioned};
ghost use Rattle.cfarm_library.specs.Flags.{given};
ghost use Rattle.cfarm_library.specs.Put.{Puts};

use crate::answering::{CfarmAnswer, is_long, passed, put};
use cfarm_library_answers::{emit_by, no_memory, show, verify, version};
use std::alloc::Global;

fn seed_of(drawn: u32, seed: u64) -> Option<u64>
    ensures { result ≡ given drawn seed }
{
    match drawn {
        0 => None,
        _ => Some(seed),
    }
}

/// `emit` of the form of this number; where `drawn` is not 0 by this seed.
#[unsafe(no_mangle)]
pub extern "C" fn cfarm_emit(
    alloc: Global,
    text: &[u8],
    form: u32,
    drawn: u32,
    seed: u64,
    answer: &mut CfarmAnswer,
) -> u32
    ensures { Puts (FormedBy form text.now (given drawn seed)) result answer.new }
{
    if is_long(text) {
        return put(no_memory(alloc), answer);
    }
    put(
        emit_by(alloc, passed(text), form, seed_of(drawn, seed)),
        answer,
    )
}

/// `show`.
#[unsafe(no_mangle)]
pub extern "C" fn cfarm_show(alloc: Global, program: &[u8], answer: &mut CfarmAnswer) -> u32
    ensures { Puts (Texted program.now) result answer.new }
{
    if is_long(program) {
        return put(no_memory(alloc), answer);
    }
    put(show(alloc, passed(program)), answer)
}

/// `verify`, in one thread.
#[unsafe(no_mangle)]
pub extern "C" fn cfarm_verify(
    alloc: Global,
    text: &[u8],
    program: &[u8],
    bundle: &[u8],
    answer: &mut CfarmAnswer,
) -> u32
    ensures { Puts (Proven text.now program.now bundle.now) result answer.new }
{
    if is_long(text) || is_long(program) || is_long(bundle) {
        return put(no_memory(alloc), answer);
    }
    put(
        verify(alloc, passed(text), passed(program), passed(bundle)),
        answer,
    )
}

/// `--version`.
#[unsafe(no_mangle)]
pub extern "C" fn cfarm_version(alloc: Global, answer: &mut CfarmAnswer) -> u32
    ensures { Puts Versioned result answer.new }
{
    put(version(alloc), answer)
}
