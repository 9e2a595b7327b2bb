//! The program of a C text, made ready, with the text's digest.

ghost use Rattle.std.specs.Prelude.{IfOk, IfErr};
ghost use Rattle.c_syntax.specs.Trees.{UnitTree};
ghost use Rattle.c_texts.specs.Accepted.{IsAccepted};
ghost use Rattle.farm_nodes_source.specs.Refused.{IsOnlyTooLarge, IsUnprepared};
ghost use Rattle.cfarm_verify_reading.specs.Found.{IsSourceOf};

use farm_nodes_source::{Source, SourceFault, prepare};
use std::alloc::Global;

/// The program of a text, made ready for the first pass, with the text's digest.
pub(crate) fn prepared(alloc: Global, text: &[u8]) -> Result<Source, SourceFault>
    ensures source { IfOk result (IsSourceOf text.now) }
    ensures refused { IfErr result (IsUnprepared text.now) }
    ensures only { (u : UnitTree) → IsAccepted text.now u → IfErr result (IsOnlyTooLarge u) }
{
    match prepare(alloc, text) {
        Ok(source) => Ok(source),
        Err(fault) => Err(fault),
    }
}
