//! The text of a file, by its first byte and its language.

ghost use Rattle.std.specs.Prelude.{IfOk, IfErr};
ghost use Rattle.text_files.specs.Files.{IsCminor, IsRtl, IsLtl, IsLinear, IsProgramTextOf, HasNoProgramText, HasNone, IsShownText, HasNoText};

use crate::reading::{first_of, read_whole, tag_of};
use cminor_language::Cminor;
use lang_base::FormError;
use linear_language::Linear;
use ltl::Ltl;
use rtl_language::Rtl;
use std::alloc::Global;
use text_cminor::push_cminor;
use text_linear::push_linear;
use text_ltl::push_ltl;
use text_offers::text_of_offer;
use text_rtl::push_rtl;

fn text_of_cminor(alloc: Global, bytes: &[u8]) -> Result<Vec<u8>, FormError>
    ensures ok { IfOk result (λ text. IsProgramTextOf bytes.now text.items) }
    ensures refused { IfErr result (λ fault. HasNone IsCminor bytes.now fault) }
{
    let program = read_whole::<Cminor>(alloc, bytes)?;
    let mut text = Vec::new(alloc);
    push_cminor(&mut text, &program)?;
    Ok(text)
}

fn text_of_rtl(alloc: Global, bytes: &[u8]) -> Result<Vec<u8>, FormError>
    ensures ok { IfOk result (λ text. IsProgramTextOf bytes.now text.items) }
    ensures refused { IfErr result (λ fault. HasNone IsRtl bytes.now fault) }
{
    let program = read_whole::<Rtl>(alloc, bytes)?;
    let mut text = Vec::new(alloc);
    push_rtl(&mut text, &program)?;
    Ok(text)
}

fn text_of_ltl(alloc: Global, bytes: &[u8]) -> Result<Vec<u8>, FormError>
    ensures ok { IfOk result (λ text. IsProgramTextOf bytes.now text.items) }
    ensures refused { IfErr result (λ fault. HasNone IsLtl bytes.now fault) }
{
    let program = read_whole::<Ltl>(alloc, bytes)?;
    let mut text = Vec::new(alloc);
    push_ltl(&mut text, &program)?;
    Ok(text)
}

fn text_of_linear(alloc: Global, bytes: &[u8]) -> Result<Vec<u8>, FormError>
    ensures ok { IfOk result (λ text. IsProgramTextOf bytes.now text.items) }
    ensures refused { IfErr result (λ fault. HasNone IsLinear bytes.now fault) }
{
    let program = read_whole::<Linear>(alloc, bytes)?;
    let mut text = Vec::new(alloc);
    push_linear(&mut text, &program)?;
    Ok(text)
}

/// The text of a program.
#[tactic(auto, using(crate::proofs::Files::cminor_refused, crate::proofs::Files::rtl_refused, crate::proofs::Files::ltl_refused, crate::proofs::Files::linear_refused))]
fn text_of_program(alloc: Global, bytes: &[u8]) -> Result<Vec<u8>, FormError>
    ensures ok { IfOk result (λ text. IsProgramTextOf bytes.now text.items) }
    ensures refused { IfErr result (λ fault. HasNoProgramText bytes.now fault) }
{
    match tag_of(bytes) {
        1 => text_of_cminor(alloc, bytes),
        2 => text_of_rtl(alloc, bytes),
        3 => text_of_ltl(alloc, bytes),
        _ => text_of_linear(alloc, bytes),
    }
}

/// The text of a file: programs begin with another byte than offers.
#[tactic(auto, using(crate::proofs::Files::program_refused, crate::proofs::Files::offer_refused, crate::proofs::Files::program_shown, crate::proofs::Files::offer_shown))]
pub(crate) fn text_of(alloc: Global, bytes: &[u8]) -> Result<Vec<u8>, FormError>
    ensures ok { IfOk result (λ text. IsShownText bytes.now text.items) }
    ensures refused { IfErr result (λ fault. HasNoText bytes.now fault) }
{
    if first_of(bytes) == b'C' {
        text_of_program(alloc, bytes)
    } else {
        text_of_offer(alloc, bytes)
    }
}
