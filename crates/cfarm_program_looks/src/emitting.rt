ghost use Rattle.std.specs.Prelude.{◌≤◌};
ghost use Rattle.cfarm_program_looks.specs.Emitting.{Formed};
ghost use Rattle.cfarm_program_status.specs.Reading.{Says};
ghost use Rattle.cfarm_program_status.specs.Trace.{shown};

use cfarm_emit::emit;
use cfarm_options::Emitted;
use cfarm_output::{ErrorLines, Paced};
use cfarm_program_status::tell;
use std::alloc::Global;
use std::io::Write;

/// `emit`: writes the program of a C text in a form, or tells why there is none.
#[tactic(auto, using(crate::proofs::EmitStatuses::in_table))]
pub fn emit_form<W: Write, E: ErrorLines>(
    alloc: Global,
    text: &[u8],
    emitted: Emitted,
    seed: Option<u64>,
    out: &mut Paced<W>,
    err: &mut E,
) -> u8
    ensures does { Says W.contents E.contents (Formed text.now emitted seed) (shown result out err) }
    ensures table { result ≤ 7 }
{
    match emit(alloc, text, emitted, seed, out) {
        Ok(()) => 0,
        Err(fault) => {
            let status = fault.status();
            tell(err, fault, status)
        }
    }
}
