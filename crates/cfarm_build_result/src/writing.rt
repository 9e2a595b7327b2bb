ghost use Rattle.std.specs.Prelude.{◌≡◌, IfOk};
ghost use Rattle.lang.specs.Form.{IsProgram, program_text};
ghost use Rattle.linear_language.specs.Function.{IsFunction};
ghost use Rattle.linear_language.specs.Spelling.{spelling};

use lang::write_program;
use lang_base::{NoMemory, Program};
use linear_language::{Function, Linear};
use std::alloc::Global;

/// The bytes of a linked program.
pub(crate) fn written(alloc: Global, program: &Program<Function>) -> Result<Vec<u8>, NoMemory>
    requires { IsProgram IsFunction program.now }
    ensures { IfOk result (λ bytes. bytes.items ≡ program_text 4 spelling program.now) }
{
    let mut bytes = Vec::new(alloc);
    match write_program::<Linear>(program, &mut bytes) {
        Ok(()) => Ok(bytes),
        Err(fault) => Err(fault),
    }
}
