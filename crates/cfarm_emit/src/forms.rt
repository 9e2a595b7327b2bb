//! Each form's bytes.

ghost use Rattle.std.specs.Prelude.{◌≡◌, ◌≤◌, length, IfOk};
ghost use Rattle.c_checker_rules.specs.Checked.{program_tree};
ghost use Rattle.bundle_reading.specs.Texts.{IsBundleOf};
ghost use Rattle.cfarm_emit.specs.Made.{IsBundledOf, IsCminorOf, IsLinearOf, IsLinked, IsLtlOf, IsMadeFrom, IsReady, IsRtlOf};

use crate::offering::{all_texts, made_offers};
use crate::texts::{headed_text, linked_text, text_of, thirds_text};
use bundle_reading::written;
use c_checker_rules::CProgram;
use cfarm_options::Emitted;
use chains::Offers;
use cminor::lower;
use cminor_language::Cminor;
use lang_base::{NoMemory, Program, keeps_composes};
use rtl_language::{Function, Rtl};
use std::alloc::Global;

/// What the program is lowered to.
fn cminor_text(
    alloc: Global,
    program: &CProgram,
    begun: &Program<Function>,
) -> Result<Vec<u8>, NoMemory>
    requires { IsReady (program_tree program.now) begun.now }
    ensures { IfOk result (λ bytes. IsCminorOf (program_tree program.now) bytes.items) }
{
    match lower(alloc, program) {
        Ok(lowered) => headed_text::<Cminor>(alloc, program, &lowered),
        Err(fault) => Err(fault),
    }
}

/// What that is translated to.
fn rtl_text(
    alloc: Global,
    program: &CProgram,
    begun: &Program<Function>,
) -> Result<Vec<u8>, NoMemory>
    requires { IsReady (program_tree program.now) begun.now }
    ensures { IfOk result (λ bytes. IsRtlOf (program_tree program.now) begun.now bytes.items) }
{
    text_of::<Rtl>(alloc, begun)
}

/// The third pass's outputs.
fn ltl_text(
    alloc: Global,
    program: &CProgram,
    begun: &Program<Function>,
    seed: Option<u64>,
) -> Result<Vec<u8>, NoMemory>
    requires { IsReady (program_tree program.now) begun.now }
    ensures { IfOk result (λ bytes. IsLtlOf begun.now seed bytes.items) }
{
    match made_offers(alloc, begun.functions.as_slice(), seed) {
        Ok(offers) => thirds_text(alloc, program, begun, &offers),
        Err(fault) => Err(fault),
    }
}

/// The program that these offers link.
fn program_text(
    alloc: Global,
    program: &CProgram,
    begun: &Program<Function>,
    offers: &[Offers],
) -> Result<Vec<u8>, NoMemory>
    requires { IsReady (program_tree program.now) begun.now }
    ensures { IfOk result (λ bytes. IsLinked (program_tree program.now) begun.now offers.now bytes.items) }
{
    keeps_composes();
    linked_text(alloc, program, begun, offers)
}

/// The fourth pass's outputs.
fn linear_text(
    alloc: Global,
    program: &CProgram,
    begun: &Program<Function>,
    seed: Option<u64>,
) -> Result<Vec<u8>, NoMemory>
    requires { IsReady (program_tree program.now) begun.now }
    ensures { IfOk result (λ bytes. IsLinearOf (program_tree program.now) begun.now seed bytes.items) }
{
    match made_offers(alloc, begun.functions.as_slice(), seed) {
        Ok(offers) => program_text(alloc, program, begun, &offers),
        Err(fault) => Err(fault),
    }
}

/// The bundle of these offers.
fn offers_text(alloc: Global, digest: &[u8], offers: &[Offers]) -> Result<Vec<u8>, NoMemory>
    requires digest { length digest.now ≡ 32 }
    requires few { length offers.now ≤ 64 }
    ensures { IfOk result (λ bytes. IsBundleOf bytes.items digest.now offers.now) }
{
    let texts = all_texts(alloc, offers)?;
    match written(alloc, digest, texts) {
        Ok(bytes) => Ok(bytes),
        Err(fault) => Err(fault),
    }
}

/// The bundle of the offers.
fn bundle_text(
    alloc: Global,
    digest: &[u8],
    program: &CProgram,
    begun: &Program<Function>,
    seed: Option<u64>,
) -> Result<Vec<u8>, NoMemory>
    requires digest { length digest.now ≡ 32 }
    requires ready { IsReady (program_tree program.now) begun.now }
    ensures { IfOk result (λ bytes. IsBundledOf digest.now begun.now seed bytes.items) }
{
    match made_offers(alloc, begun.functions.as_slice(), seed) {
        Ok(offers) => offers_text(alloc, digest, &offers),
        Err(fault) => Err(fault),
    }
}

/// The form that is asked for.
pub(crate) fn form_text(
    alloc: Global,
    digest: &[u8],
    program: &CProgram,
    begun: &Program<Function>,
    of: Emitted,
    seed: Option<u64>,
) -> Result<Vec<u8>, NoMemory>
    requires digest { length digest.now ≡ 32 }
    requires ready { IsReady (program_tree program.now) begun.now }
    ensures { IfOk result (λ bytes. IsMadeFrom digest.now (program_tree program.now) begun.now of seed bytes.items) }
{
    match of {
        Emitted::Cminor => cminor_text(alloc, program, begun),
        Emitted::Rtl => rtl_text(alloc, program, begun),
        Emitted::Ltl => ltl_text(alloc, program, begun, seed),
        Emitted::Linear => linear_text(alloc, program, begun, seed),
        Emitted::Bundle => bundle_text(alloc, digest, program, begun, seed),
    }
}
