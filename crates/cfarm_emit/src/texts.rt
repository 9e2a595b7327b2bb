//! The texts of programs.

ghost use Rattle.std.specs.Prelude.{◌≡◌, length, IfOk};
ghost use Rattle.lang_base.specs.Keeps.{Keeps};
ghost use Rattle.c_checker_rules.specs.Checked.{program_tree};
ghost use Rattle.cminor_lowering.specs.Programs.{low};
ghost use Rattle.cminor_program_ranges.specs.Heads.{HasHeadOf};
ghost use Rattle.cminor_program_ranges.specs.Names.{HaveNames};
ghost use Rattle.lang.specs.Form.{IsProgram, program_text};
ghost use Rattle.linear_language.specs.Meaning as linear;
ghost use Rattle.chains.specs.Chains.{names_of};
ghost use Rattle.rtl_language.specs.Meaning as rtl;
ghost use Rattle.chains.specs.Offered.{linked_offers};
ghost use Rattle.cfarm_emit.specs.Made.{IsLinkedFrom, text_of_thirds};

use crate::thirds::third_program;
use c_checker_rules::CProgram;
use chains::{Offers, link_offers};
use cminor_program_ranges::same_head_fits;
use lang::write_program;
use lang_base::{Language, NoMemory, Program};
use linear_language::{Function, Linear};
use ltl::Ltl;
use std::alloc::Global;

/// The text of a program.
pub(crate) fn text_of<L: Language>(
    alloc: Global,
    program: &Program<L::Fun>,
) -> Result<Vec<u8>, NoMemory>
    requires { IsProgram L.fits program.now }
    ensures { IfOk result (λ bytes. bytes.items ≡ program_text L.TAG L.spelling program.now) }
{
    let mut bytes = Vec::new(alloc);
    match write_program::<L>(program, &mut bytes) {
        Ok(()) => Ok(bytes),
        Err(fault) => Err(fault),
    }
}

/// The text of a program under a lowered program's names.
pub(crate) fn headed_text<L: Language>(
    alloc: Global,
    program: &CProgram,
    made: &Program<L::Fun>,
) -> Result<Vec<u8>, NoMemory>
    requires head { HasHeadOf (low (program_tree program.now)) made.now }
    requires names { HaveNames (program_tree program.now) }
    ensures { IfOk result (λ bytes. bytes.items ≡ program_text L.TAG L.spelling made.now) }
{
    same_head_fits::<L>(program, made);
    text_of::<L>(alloc, made)
}

/// The text of the program of the third offers' outputs.
pub(crate) fn thirds_text(
    alloc: Global,
    program: &CProgram,
    begun: &Program<rtl_language::Function>,
    offers: &[Offers],
) -> Result<Vec<u8>, NoMemory>
    requires head { HasHeadOf (low (program_tree program.now)) begun.now }
    requires names { HaveNames (program_tree program.now) }
    requires many { length begun.now.functions ≡ length offers.now }
    ensures { IfOk result (λ bytes. bytes.items ≡ text_of_thirds begun.now offers.now) }
{
    match third_program(alloc, begun, offers) {
        Ok(made) => headed_text::<Ltl>(alloc, program, &made),
        Err(fault) => Err(fault),
    }
}

/// The program that offers link, where they chain.
fn linked(
    alloc: Global,
    begun: &Program<rtl_language::Function>,
    offers: &[Offers],
) -> Result<Program<Function>, NoMemory>
    ensures is { IfOk result (λ made. made ≡ linked_offers begun.now offers.now) }
    ensures names { IfOk result (λ made. names_of made.functions ≡ names_of begun.now.functions) }
    ensures keeps { IfOk result (λ made. Keeps (rtl.run begun.now) (linear.run made)) }
{
    match link_offers(alloc, begun, offers) {
        Ok(made) => Ok(made),
        Err(_) => Err(NoMemory),
    }
}

/// The text of the program that the offers link.
pub(crate) fn linked_text(
    alloc: Global,
    program: &CProgram,
    begun: &Program<rtl_language::Function>,
    offers: &[Offers],
) -> Result<Vec<u8>, NoMemory>
    requires head { HasHeadOf (low (program_tree program.now)) begun.now }
    requires names { HaveNames (program_tree program.now) }
    ensures { IfOk result (λ bytes. IsLinkedFrom begun.now offers.now bytes.items) }
{
    match linked(alloc, begun, offers) {
        Ok(made) => headed_text::<Linear>(alloc, program, &made),
        Err(fault) => Err(fault),
    }
}
