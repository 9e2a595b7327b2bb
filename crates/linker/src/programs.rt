ghost use Rattle.std.specs.Prelude.{◌≡◌, ◌≢◌, ◌↔◌, ◌≤◌, All, IfOk, IfErr, IsErrAnd, OnOk};
ghost use Rattle.lang_base.specs.Keeps.{Keeps};
ghost use Rattle.c_program.specs.Meaning.{crun};
ghost use Rattle.c_checker_rules.specs.Checked.{program_tree};
ghost use Rattle.cminor_lowering.specs.Programs.{low};
ghost use Rattle.rtlgen_definition.specs.Gen.{gen};
ghost use Rattle.rtlgen.specs.Refused.{HasFewNodes};
ghost use Rattle.cminor_program_ranges.specs.Names.{HaveNames};
ghost use Rattle.cminor_program_ranges.specs.Form.{IsProgram};
ghost use Rattle.linear_language.specs.Function.{IsFunction};
ghost use Rattle.linear_language.specs.Meaning as linear;
ghost use Rattle.linker.specs.Chains.{linked, names_beside, names_of, AllChained, HasNamesOf, Refusal, WhereWhole};
ghost use Rattle.linker.specs.Refused.{HasNoTranslation, HasOtherNames, IsNamesOrMemory, IsRefused, WhereAllLinks};
ghost use Rattle.rtl_language.specs.Meaning as rtl;

use crate::chain::{ChainOf, NamedOf};
use crate::errors::LinkError;
use crate::names::are_names;
use crate::refusals::rtl_of;
use alloc_check::Alloc;
use c_checker_rules::CProgram;
use cminor::lower;
use cminor_program_ranges::same_head_fits;
use constprop_check::ConstProp;
use cse_check::Cse;
use lang_base::{Program, keeps_composes};
use linear_language::{Function, Linear};
use linearize_check::Linearize;
use std::alloc::Global;

/// The offers of one function, one for each pass, in the order of the passes.
pub type Chain<'a> = ChainOf<'a, ConstProp, Cse, Alloc, Linearize>;

/// A function's name, and perhaps its offers.
pub type Named<'a> = NamedOf<'a, ConstProp, Cse, Alloc, Linearize>;

/// The RTL program of a checked C program, with which the chains begin; it keeps the C program's meaning.
/// The time is linear in the program.
pub fn translated(
    alloc: Global,
    program: &CProgram,
) -> Result<Program<rtl_language::Function>, LinkError>
    ensures same { IfOk result (λ made. made ≡ gen (low (program_tree program.now))) }
    ensures same_names { IfOk result (HasNamesOf (low (program_tree program.now))) }
    ensures small { IfOk result (λ made. All (λ f. f.function.registers ≤ 2048) made.functions) }
    ensures keeps { IfOk result (λ made. Keeps (crun (program_tree program.now)) (rtl.run made)) }

    // Where memory is not wanting, it is refused exactly where a function needs too many nodes.
    ensures few { OnOk result (All HasFewNodes (low (program_tree program.now)).functions) }
    ensures refused { IfErr result (λ e. HasNoTranslation (low (program_tree program.now)) e) }
{
    keeps_composes();
    let lowered = lower(alloc, program)?;
    let begun = rtl_of(alloc, &lowered)?;
    Ok(begun)
}

/// The Linear program of the last outputs, where the chains begin with the functions of this RTL program; it keeps the
/// RTL program's meaning. The time is linear in the program and the offers.
pub fn link_translated(
    alloc: Global,
    program: &Program<rtl_language::Function>,
    named: &[Named<'_>],
) -> Result<Program<Function>, LinkError>
    ensures ok { IfOk result (λ made. made ≡ linked program.now named.now) }
    ensures same_names { IfOk result (λ made. names_of made.functions ≡ names_of program.now.functions) }
    ensures chained { OnOk result (AllChained program.now.functions named.now) }
    ensures keeps { IfOk result (λ made. Keeps (rtl.run program.now) (linear.run made)) }

    // Tested first: the names are others, or not as many. Where they are right and all chains are whole, only memory
    // can be refused.
    ensures names { (result ≡ Err LinkError.Names) ↔ (names_beside named.now ≢ names_of program.now.functions) }
    ensures refused { IfErr result (λ e. Refusal program.now.functions named.now e) }
    ensures whole { WhereWhole program.now.functions named.now (IfErr result (λ e. e ≡ LinkError.NoMemory)) }
{
    crate::linking::link::<ConstProp, Cse, Alloc, Linearize>(alloc, program, named)
}

/// The Linear program of the last outputs, which keeps the meaning of the C program: each function is the
/// output of its fourth offer. The time is linear in the program and the offers.
pub fn link(
    alloc: Global,
    program: &CProgram,
    named: &[Named<'_>],
) -> Result<Program<Function>, LinkError>
    ensures ok { IfOk result (λ made. made ≡ linked (gen (low (program_tree program.now))) named.now) }
    ensures same_names { IfOk result (HasNamesOf (low (program_tree program.now))) }
    ensures chained { OnOk result (AllChained (gen (low (program_tree program.now))).functions named.now) }
    ensures keeps { IfOk result (λ made. Keeps (crun (program_tree program.now)) (linear.run made)) }

    // Where the C program's functions have C names, as those of a text do, what is linked may be written.
    ensures spelled { HaveNames (program_tree program.now) → IfOk result (IsProgram IsFunction) }

    // Tested first: the names are others, or not as many.
    ensures names { HasOtherNames (low (program_tree program.now)) named.now → IsErrAnd result IsNamesOrMemory }
    ensures few { OnOk result (All HasFewNodes (low (program_tree program.now)).functions) }
    ensures refused { IfErr result (λ e. IsRefused (low (program_tree program.now)) named.now e) }

    // Where the names are the program's, no function needs too many nodes and all chains are whole, only memory can be
    // refused.
    ensures whole { WhereAllLinks (low (program_tree program.now)) named.now (IfErr result (λ e. e ≡ LinkError.NoMemory)) }
{
    keeps_composes();
    let lowered = lower(alloc, program)?;
    if !are_names(lowered.functions.as_slice(), named) {
        return Err(LinkError::Names);
    }
    let translated = rtl_of(alloc, &lowered)?;
    let made = link_translated(alloc, &translated, named)?;
    same_head_fits::<Linear>(program, &made);
    Ok(made)
}
