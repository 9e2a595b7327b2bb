ghost use Rattle.std.specs.Prelude.{◌≡◌, ◌≤◌, All, None, IfOk, IfErr, OnOk};
ghost use Rattle.lang_base.specs.Keeps.{Keeps};
ghost use Rattle.c_program.specs.Meaning.{crun};
ghost use Rattle.c_checker_rules.specs.Checked.{program_tree};
ghost use Rattle.cminor_lowering.specs.Programs.{low};
ghost use Rattle.rtlgen_definition.specs.Gen.{gen};
ghost use Rattle.chains.specs.RtlgenRefused.{HasFewNodes};
ghost use Rattle.cminor_program_ranges.specs.Names.{HaveNames};
ghost use Rattle.lang.specs.Form.{IsProgram};
ghost use Rattle.linear_language.specs.Function.{IsFunction};
ghost use Rattle.linear_language.specs.Meaning as linear;
ghost use Rattle.chains.specs.Chains.{HasNamesOf};
ghost use Rattle.chains.specs.Accepted.{AreAccepted};
ghost use Rattle.chains_made.specs.Baselines.{AreBaselines};
ghost use Rattle.chains_made.specs.Compiled.{IsBaselineProgram, IsCompiled};
ghost use Rattle.chains_made.specs.Counted.{AreCounted};
ghost use Rattle.chains.specs.Offered.{AllGoOn};
ghost use Rattle.chains_made.specs.Refused.{IsNoMemory, IsRefused};

use crate::errors::CompileError;
use crate::makers::{Maker, offers_of};
use c_checker_rules::CProgram;
use chains::{Offers, link_offers, translated};
use cminor_program_ranges::same_head_fits;
use lang_base::{Named, Program, keeps_composes};
use linear_language::{Function, Linear};
use std::alloc::Global;

/// The offers of each function that the maker makes, in order: their passes accept them, and they chain from the functions on.
pub fn all_offers(
    alloc: Global,
    functions: &[Named<rtl_language::Function>],
    maker: &mut Maker,
) -> Result<Vec<Offers>, CompileError>
    ensures chained { IfOk result (λ offers. AllGoOn functions.now offers.items) }
    ensures accepted { IfOk result (λ offers. All AreAccepted offers.items) }
    ensures counted { IfOk result (λ offers. AreCounted maker.old.proposals maker.new.proposals offers.items) }
    ensures stays { maker.old.draws ≡ None → maker.new ≡ maker.old }
    ensures alone { maker.old.draws ≡ None → IfOk result (λ offers. All AreBaselines offers.items) }
    ensures refused { All (λ f. f.function.registers ≤ 2048) functions.now → IfErr result IsNoMemory }
{
    let mut offers = Vec::with_capacity(alloc, functions.len())?;
    for number in 0..functions.len() {
        offers.push(offers_of(alloc, &functions[number].function, maker)?)?;
    }
    Ok(offers)
}

/// The Linear program of a checked C program by the offers that the maker makes: their passes accept them, and they chain,
/// from the functions of the translated program on. It keeps the meaning of the C program, whatever they are. A maker of
/// baselines stays as it was; one of optimisers counts their offers, and those that it does not count are baselines. The C
/// program is lowered and translated once.
pub fn compile(
    alloc: Global,
    program: &CProgram,
    maker: &mut Maker,
) -> Result<Program<Function>, CompileError>
    ensures keeps { IfOk result (λ made. Keeps (crun (program_tree program.now)) (linear.run made)) }
    ensures same_names { IfOk result (HasNamesOf (low (program_tree program.now))) }
    ensures spelled { HaveNames (program_tree program.now) → IfOk result (IsProgram IsFunction) }

    // Which offers are linked.
    ensures is { IfOk result
        (IsCompiled maker.old.proposals maker.new.proposals (gen (low (program_tree program.now)))) }
    ensures baselines { maker.old.draws ≡ None → IfOk result (IsBaselineProgram (gen (low (program_tree program.now)))) }
    ensures stays { maker.old.draws ≡ None → maker.new ≡ maker.old }

    // Where memory is not wanting, it is refused exactly where a function needs too many nodes.
    ensures few { OnOk result (All HasFewNodes (low (program_tree program.now)).functions) }
    ensures refused { IfErr result (λ e. IsRefused (low (program_tree program.now)) e) }
{
    keeps_composes();
    let begun = translated(alloc, program)?;
    let offers = all_offers(alloc, begun.functions.as_slice(), maker)?;
    let made = link_offers(alloc, &begun, &offers)?;
    same_head_fits::<Linear>(program, &made);
    Ok(made)
}
