ghost use Rattle.std.specs.Prelude.{◌≡◌, ◌≤◌, All, length, IfOk, IfErr};
ghost use Rattle.std.specs.Arc.{arc_value};
ghost use Rattle.lang_base.specs.Keeps.{Keeps};
ghost use Rattle.c_syntax.specs.Trees.{UnitTree};
ghost use Rattle.c_program.specs.Meaning.{crun};
ghost use Rattle.c_checker_rules.specs.Checked.{program_tree};
ghost use Rattle.c_texts.specs.Accepted.{IsAccepted, IsProgramOf};
ghost use Rattle.cminor_lowering.specs.Programs.{low};
ghost use Rattle.cminor_program_ranges.specs.Names.{HaveNames};
ghost use Rattle.lang.specs.Form.{IsProgram};
ghost use Rattle.rtl_language.specs.Function.{IsFunction};
ghost use Rattle.rtl_language.specs.Meaning as rtl;
ghost use Rattle.rtlgen.specs.Refused.{HasFewNodes};
ghost use Rattle.rtlgen_definition.specs.Gen.{gen};
ghost use Rattle.sha2.specs.Sha256.{sha256};
ghost use Rattle.farm_nodes_source.specs.Ready.{HaveSameNames, IsReadyUnlessLarge};
ghost use Rattle.farm_nodes_source.specs.Refused.{IsUnprepared};

use crate::fault::SourceFault;
use crate::source::Source;
use crate::translating::translated;
use c_texts::accept;
use cminor_program_ranges::accepted_has_names;
use lang_base::NoMemory;
use sha2::{Digest, Sha256};
use std::alloc::Global;
use std::sync::Arc;

/// The program of a C text, made ready for the first pass, with the text's digest. The time is linear in the text.
pub fn prepare(alloc: Global, text: &[u8]) -> Result<Source, SourceFault>
    // The text is accepted; this is its program, and what it is translated to.
    ensures accepted { IfOk result (λ s. (u : UnitTree) × IsAccepted text.now u × IsProgramOf u s.program) }
    ensures translated { IfOk result (λ s. arc_value s.translated ≡ gen (low (program_tree s.program))) }
    ensures keeps { IfOk result (λ s. Keeps (crun (program_tree s.program)) (rtl.run (arc_value s.translated))) }
    ensures digest { IfOk result (λ s. s.digest ≡ sha256 text.now) }

    // The functions stand in the order of the text, each under its C name, and are 64 at most. What they are translated to
    // has a spelling, and each has so few nodes and registers that no pass refuses it.
    ensures names { IfOk result (λ s. HaveNames (program_tree s.program)) }
    ensures same_names { IfOk result (λ s. HaveSameNames (arc_value s.translated) s.program) }
    ensures count { IfOk result (λ s. length (arc_value s.translated).functions ≤ 64) }
    ensures fits { IfOk result (λ s. IsProgram IsFunction (arc_value s.translated)) }
    ensures few { IfOk result (λ s. All HasFewNodes (low (program_tree s.program)).functions) }
    ensures small { IfOk result (λ s. All (λ f. f.function.registers ≤ 2048) (arc_value s.translated).functions) }

    // The first fault of the text, or its first function that needs too many nodes, unless memory was refused. A text that
    // is accepted is refused for nothing else.
    ensures refused { IfErr result (IsUnprepared text.now) }
    ensures only { IsReadyUnlessLarge text.now result (λ s. s.program) }
{
    let program = match accept(alloc, text) {
        Ok(program) => program,
        Err(fault) => return Err(SourceFault::Text(fault)),
    };
    accepted_has_names();
    let begun = match translated(alloc, &program) {
        Ok(begun) => begun,
        Err(fault) => return Err(fault),
    };
    match shared(alloc, begun) {
        Ok(translated) => Ok(Source {
            program,
            translated,
            digest: Sha256::digest(text),
        }),
        Err(NoMemory) => Err(SourceFault::NoMemory),
    }
}

/// A value that many may hold.
pub fn shared<T: Drop>(alloc: Global, value: T) -> Result<Arc<T>, NoMemory>
    ensures { IfOk result (λ held. arc_value held ≡ value) }
{
    match Arc::new(alloc, value) {
        Ok(held) => Ok(held),
        Err(_) => Err(NoMemory),
    }
}
