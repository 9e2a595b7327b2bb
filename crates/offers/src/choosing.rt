//! The choice between a proposal and a baseline.

ghost use Rattle.std.specs.Prelude.{◌≡◌, ◌≢◌, IsTrue, IsSome, IfOk, IfErr, IfSome};
ghost use Rattle.offers.specs.Proposals.{IsAcceptable, IsElseBaseline, IsProposed};

use crate::baselines::{Baselines, baseline_of};
use crate::errors::OfferError;
use crate::offer::Offer;
use lang_base::{Language, NoMemory, Oracle, Pass, PassError};
use rand_pcg::Pcg32;
use std::alloc::Global;

/// An offer, and whether it was proposed; else it is a baseline.
#[derive(Drop)]
pub struct Choice<P: Pass> {
    pub offer: Offer<P>,
    pub is_proposal: bool,
}

/// The proposal as an offer, if there is one and the pass accepts it.
fn accepted_of<P: Pass>(
    alloc: Global,
    input: &<P::In as Language>::Fun,
    proposal: Option<(<P::Out as Language>::Fun, P::Cert)>,
) -> Result<Option<Offer<P>>, NoMemory>
    ensures input { IfOk result (λ found. IfSome found (λ offer. offer.input ≡ input.now)) }
    ensures is { IfOk result (λ found. IfSome found (IsProposed proposal)) }
    ensures accepted { IfOk result (λ found. IsAcceptable P.accepts input.now proposal → IsSome found) }
{
    let Some((output, certificate)) = proposal else {
        return Ok(None);
    };
    let copied = P::In::copy(alloc, input)?;
    match Offer::<P>::check(alloc, copied, output, certificate) {
        Ok(offer) => Ok(Some(offer)),
        Err(OfferError::NoMemory) => Err(NoMemory),
        Err(_) => Ok(None),
    }
}

/// An offer for the input: the proposal where there is one that the pass accepts, else the baseline.
pub fn choice_of<P: Pass, B: Baselines<P>>(
    alloc: Global,
    input: &<P::In as Language>::Fun,
    proposal: Option<(<P::Out as Language>::Fun, P::Cert)>,
) -> Result<Choice<P>, PassError>
    ensures input { IfOk result (λ made. made.offer.input ≡ input.now) }
    ensures proposal { IfOk result (λ made. IsTrue made.is_proposal → IsProposed proposal made.offer) }
    ensures accepted { IfOk result (λ made. IsAcceptable P.accepts input.now proposal → IsTrue made.is_proposal) }
    ensures baseline { IfOk result (λ made. IsElseBaseline B.is_baseline made.is_proposal made.offer) }

    // What is proposed is never refused, but replaced; so only what has no baseline is.
    ensures refused { IfErr result (λ e. e ≢ PassError.NoMemory → P.too_large input.now) }
{
    match accepted_of::<P>(alloc, input, proposal)? {
        Some(offer) => Ok(Choice {
            offer,
            is_proposal: true,
        }),
        None => Ok(Choice {
            offer: baseline_of::<P, B>(alloc, input)?,
            is_proposal: false,
        }),
    }
}

/// An offer for the input: the optimiser's where it makes one that the pass accepts, else the baseline.
pub fn choose<P: Pass, B: Baselines<P>, O: Oracle<P = P>>(
    alloc: Global,
    oracle: &mut O,
    input: &<P::In as Language>::Fun,
    draws: &mut Pcg32,
) -> Result<Choice<P>, PassError>
    ensures input { IfOk result (λ made. made.offer.input ≡ input.now) }
    ensures baseline { IfOk result (λ made. IsElseBaseline B.is_baseline made.is_proposal made.offer) }
    ensures refused { IfErr result (λ e. e ≢ PassError.NoMemory → P.too_large input.now) }
{
    let proposal = oracle.propose(alloc, input, draws)?;
    choice_of::<P, B>(alloc, input, proposal)
}
