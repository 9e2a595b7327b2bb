//! The lowering, with the laws.

ghost use Rattle.std.specs.Prelude.{◌≡◌, IfOk};
ghost use Rattle.native_lowering_definition.specs.Lowering.{lowered};
ghost use Rattle.native_lowering_laws.specs.Laws.{KeepsMeaning, StaysSafe};
ghost use Rattle.native_lowering_room.specs.Room.{KeepsInRoom};

use crate::laws::{lowering_is_safe, lowering_keeps, room_keeps};
use lang_base::{NoMemory, Program};
use linear_language::Function as Linear;
use native_lowering::lower;
use std::alloc::Global;
use x86_syntax::Function;

/// The native program of a program of Linear, as `lower` gives it, with what the laws say of it.
pub fn lower_keeping(
    alloc: Global,
    program: &Program<Linear>,
) -> Result<Program<Function>, NoMemory>
    ensures same { IfOk result (λ native. native ≡ lowered program.now) }
    ensures keeps { IfOk result (KeepsMeaning program.now) }
    ensures room { IfOk result KeepsInRoom }
    ensures safe { IfOk result (StaysSafe program.now) }
{
    lowering_keeps();
    room_keeps();
    lowering_is_safe();
    lower(alloc, program)
}
