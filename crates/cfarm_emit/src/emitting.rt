//! The whole command.

ghost use Rattle.std.specs.Prelude.{◌≡◌, ℕ, List, Option, OnOk, IfOk, IfErr};
ghost use Rattle.cfarm_emit.specs.Told.{HasEmitted, IsEmitted, IsEmitFault, Printed};

use crate::error::EmitError;
use crate::forms::form_text;
use cfarm_options::Emitted;
use cfarm_output::print_whole;
use farm_nodes_source::prepare;
use lang_base::NoMemory;
use std::alloc::Global;
use std::io::Write;

/// The bytes of the form.
fn emitted(alloc: Global, text: &[u8], of: Emitted, seed: Option<u64>) -> Result<Vec<u8>, EmitError>
    ensures emitted { IfOk result (λ bytes. IsEmitted text.now of seed bytes.items) }
    ensures refused { IfErr result (IsEmitFault text.now) }
    ensures silent { IfErr result (λ fault. (held : Option (List ℕ)) → Printed text.now of seed fault held held) }
{
    let source = match prepare(alloc, text) {
        Ok(source) => source,
        Err(fault) => return Err(EmitError::Source(fault)),
    };
    let (hash, begun) = (source.digest.as_slice(), &*source.translated);
    match form_text(alloc, hash, &source.program, begun, of, seed) {
        Ok(bytes) => Ok(bytes),
        Err(NoMemory) => Err(EmitError::NoMemory),
    }
}

/// Writes a form of the program of a C text, as docs/FORMATS has it, and flushes it. With a seed the offers of the passes are those of
/// optimisers that draw from it, as a build's first node does; without, the baselines. The time is linear in the text, as far as the
/// passes and the optimisers are.
pub fn emit<W: Write>(
    alloc: Global,
    text: &[u8],
    of: Emitted,
    seed: Option<u64>,
    out: &mut W,
) -> Result<(), EmitError>
    // The text is accepted, and the form of its program was written.
    ensures emitted { OnOk result (HasEmitted text.now of seed (W.contents out.old) (W.contents out.new)) }
    // A refusal tells the first fault of the text, and prints nothing; a writer that fails holds a beginning of the form.
    ensures refused { IfErr result (IsEmitFault text.now) }
    ensures printed { IfErr result (λ fault. Printed text.now of seed fault (W.contents out.old) (W.contents out.new)) }
{
    let bytes = match emitted(alloc, text, of, seed) {
        Ok(bytes) => bytes,
        Err(fault) => return Err(fault),
    };
    match print_whole(out, &bytes) {
        Ok(()) => Ok(()),
        Err(_) => Err(EmitError::Write),
    }
}
