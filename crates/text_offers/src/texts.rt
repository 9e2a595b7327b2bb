//! The text of a file that is a written offer.

ghost use Rattle.std.specs.Prelude.{◌≡◌, IfOk, IfErr};
ghost use Rattle.text_offers.specs.Files.{IsConstants, IsExpressions, IsAllocation, IsLayout, IsOfferTextOf, HasNoOfferText, HasNoParts, first_of};

use crate::pushing::{push_allocation, push_constants, push_expressions, push_layout};
use alloc_check::Alloc;
use constprop_check::ConstProp;
use cse_check::Cse;
use lang_base::FormError;
use linearize_check::Linearize;
use offers::Offer;
use std::alloc::Global;

/// The first byte, 0 where there is none.
fn first_of(bytes: &[u8]) -> u8
    ensures { result ≡ first_of bytes.now }
{
    if bytes.is_empty() {
        return 0;
    }
    bytes[0]
}

fn text_of_constants(alloc: Global, bytes: &[u8]) -> Result<Vec<u8>, FormError>
    ensures ok { IfOk result (λ text. IsOfferTextOf bytes.now text.items) }
    ensures refused { IfErr result (λ fault. HasNoParts IsConstants bytes.now fault) }
{
    let parts = Offer::<ConstProp>::parts(alloc, bytes)?;
    let mut text = Vec::new(alloc);
    push_constants(&mut text, &parts)?;
    Ok(text)
}

fn text_of_expressions(alloc: Global, bytes: &[u8]) -> Result<Vec<u8>, FormError>
    ensures ok { IfOk result (λ text. IsOfferTextOf bytes.now text.items) }
    ensures refused { IfErr result (λ fault. HasNoParts IsExpressions bytes.now fault) }
{
    let parts = Offer::<Cse>::parts(alloc, bytes)?;
    let mut text = Vec::new(alloc);
    push_expressions(&mut text, &parts)?;
    Ok(text)
}

fn text_of_allocation(alloc: Global, bytes: &[u8]) -> Result<Vec<u8>, FormError>
    ensures ok { IfOk result (λ text. IsOfferTextOf bytes.now text.items) }
    ensures refused { IfErr result (λ fault. HasNoParts IsAllocation bytes.now fault) }
{
    let parts = Offer::<Alloc>::parts(alloc, bytes)?;
    let mut text = Vec::new(alloc);
    push_allocation(&mut text, &parts)?;
    Ok(text)
}

fn text_of_layout(alloc: Global, bytes: &[u8]) -> Result<Vec<u8>, FormError>
    ensures ok { IfOk result (λ text. IsOfferTextOf bytes.now text.items) }
    ensures refused { IfErr result (λ fault. HasNoParts IsLayout bytes.now fault) }
{
    let parts = Offer::<Linearize>::parts(alloc, bytes)?;
    let mut text = Vec::new(alloc);
    push_layout(&mut text, &parts)?;
    Ok(text)
}

#[tactic(auto, using(crate::proofs::Files::expressions_refused, crate::proofs::Files::allocation_refused, crate::proofs::Files::layout_refused, crate::proofs::Files::constants_refused))]
/// The text of the written offer that all of the bytes are, whether its pass accepts it or not.
pub fn text_of_offer(alloc: Global, bytes: &[u8]) -> Result<Vec<u8>, FormError>
    ensures ok { IfOk result (λ text. IsOfferTextOf bytes.now text.items) }
    ensures refused { IfErr result (λ fault. HasNoOfferText bytes.now fault) }
{
    match first_of(bytes) {
        18 => text_of_expressions(alloc, bytes),
        19 => text_of_allocation(alloc, bytes),
        4 => text_of_layout(alloc, bytes),
        _ => text_of_constants(alloc, bytes),
    }
}
