//! What a node offers.

ghost use Rattle.std.specs.Prelude.{◌≡◌, IfOk, ◌≢◌, IfErr};
ghost use Rattle.cfarm_settle_nodes.specs.Offered.{OffersAccepted};

use lang_base::{Language, Oracle, Pass, PassError};
use offers::{Offer, OfferError};
use rand_pcg::Pcg32;
use std::alloc::Global;

/// The offer of the pass's baseline.
fn baseline<P: Pass>(alloc: Global, input: &<P::In as Language>::Fun) -> Result<Offer<P>, PassError>
    ensures input { IfOk result (λ offer. offer.input ≡ input.now) }
    ensures refused { IfErr result (λ e. e ≢ PassError.NoMemory → P.too_large input.now) }
{
    let (output, certificate) = match P::baseline(alloc, input) {
        Ok(made) => made,
        Err(fault) => return Err(fault),
    };
    match P::In::copy(alloc, input) {
        Ok(copied) => Ok(Offer::known(copied, output, certificate)),
        Err(_) => Err(PassError::NoMemory),
    }
}

/// The offer of what is proposed, where the pass accepts it; else the baseline's.
fn chosen<P: Pass>(
    alloc: Global,
    input: &<P::In as Language>::Fun,
    proposed: Option<(<P::Out as Language>::Fun, P::Cert)>,
) -> Result<Offer<P>, PassError>
    ensures input { IfOk result (λ offer. offer.input ≡ input.now) }
    ensures proposed { OffersAccepted P.Pass input.now proposed result }
    ensures refused { IfErr result (λ e. e ≢ PassError.NoMemory → P.too_large input.now) }
{
    let Some((output, certificate)) = proposed else {
        return baseline(alloc, input);
    };
    let Ok(copied) = P::In::copy(alloc, input) else {
        return Err(PassError::NoMemory);
    };
    match Offer::check(alloc, copied, output, certificate) {
        Ok(offer) => Ok(offer),
        Err(OfferError::NoMemory) => Err(PassError::NoMemory),
        Err(_) => baseline(alloc, input),
    }
}

/// The optimiser's offer, where it proposes one that the pass accepts; else the baseline's.
pub(crate) fn offer_for<O: Oracle>(
    alloc: Global,
    oracle: &mut O,
    input: &<<O::P as Pass>::In as Language>::Fun,
    draws: &mut Pcg32,
) -> Result<Offer<O::P>, PassError>
    ensures input { IfOk result (λ offer. offer.input ≡ input.now) }
    ensures refused { IfErr result (λ e. e ≢ PassError.NoMemory → O.P.too_large input.now) }
{
    match oracle.propose(alloc, input, draws) {
        Ok(proposed) => chosen(alloc, input, proposed),
        Err(_) => Err(PassError::NoMemory),
    }
}
