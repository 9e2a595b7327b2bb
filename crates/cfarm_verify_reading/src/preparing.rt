//! The program of a C text, made ready, with the text's digest.

ghost use Rattle.std.specs.Prelude.{◌≡◌, IfOk, IfErr};
ghost use Rattle.c_syntax.specs.Trees.{UnitTree};
ghost use Rattle.c_texts.specs.Accepted.{IsAccepted};
ghost use Rattle.farm_nodes_source.specs.Refused.{IsOnlyTooLarge, IsUnprepared};
ghost use Rattle.sha2.specs.Sha256.{sha256};
ghost use Rattle.cfarm_verify_reading.specs.Found.{IsBegunOf, IsPrepared, with_digest};

use crate::begun::Begun;
use crate::translating::made_beside;
use c_texts::accept;
use cminor_program_ranges::accepted_has_names;
use farm_nodes_source::{Source, SourceFault, shared};
use lang_base::NoMemory;
use sha2::{Digest, Sha256};
use std::alloc::Global;
use std::thread::{Threads, join};

/// The program of a text, made ready for the first pass: its functions side by side.
fn made_ready<R: Threads + Sync>(rt: &R, alloc: Global, text: &[u8]) -> Result<Begun, SourceFault>
    ensures begun { IfOk result (IsBegunOf text.now) }
    ensures refused { IfErr result (IsUnprepared text.now) }
    ensures only { (u : UnitTree) → IsAccepted text.now u → IfErr result (IsOnlyTooLarge u) }
{
    let program = match accept(alloc, text) {
        Ok(program) => program,
        Err(fault) => return Err(SourceFault::Text(fault)),
    };
    accepted_has_names();
    let made = match made_beside(rt, alloc, &program) {
        Ok(made) => made,
        Err(fault) => return Err(fault),
    };
    match shared(alloc, made) {
        Ok(translated) => Ok(Begun {
            program,
            translated,
        }),
        Err(NoMemory) => Err(SourceFault::NoMemory),
    }
}

/// What was made ready, with the digest.
fn with_digest(digest: [u8; 32], found: Result<Begun, SourceFault>) -> Result<Source, SourceFault>
    ensures { result ≡ with_digest digest found }
{
    match found {
        Ok(begun) => Ok(Source {
            program: begun.program,
            translated: begun.translated,
            digest,
        }),
        Err(fault) => Err(fault),
    }
}

/// The program of a text, made ready for the first pass, with the text's digest, which is found beside it.
pub fn prepared<R: Threads + Sync>(
    rt: &R,
    alloc: Global,
    text: &[u8],
) -> Result<Source, SourceFault>
    ensures { IsPrepared text.now result }
{
    let (digest, found) = join(
        rt,
        || -> [u8; 32]
            ensures { result ≡ sha256 text.entry.now }
        { Sha256::digest(text) },
        || -> Result<Begun, SourceFault>
            ensures begun { IfOk result (IsBegunOf text.entry.now) }
            ensures refused { IfErr result (IsUnprepared text.entry.now) }
            ensures only { (u : UnitTree) → IsAccepted text.entry.now u → IfErr result (IsOnlyTooLarge u) }
        { made_ready(rt, alloc, text) },
    );
    with_digest(digest, found)
}
