//! The offer that a node makes for an input.

ghost use Rattle.std.specs.Prelude.{◌≡◌, IfOk, IfErr};
ghost use Rattle.farm_nodes_turn_room.specs.Played.{IsChoiceFault};

use farm_nodes_turn_offer::Fault;
use lang_base::{Language, Oracle, Pass, PassError};
use offers::{AcceptedBaselines, Offer};
use rand_pcg::Pcg32;
use std::alloc::Global;

/// The optimiser's offer for the input where it makes one that the pass accepts, else the baseline's.
pub fn choose<P: Pass, O: Oracle<P = P>>(
    alloc: Global,
    oracle: &mut O,
    input: &<P::In as Language>::Fun,
    draws: &mut Pcg32,
) -> Result<Offer<P>, Fault>
    ensures input { IfOk result (λ offer. offer.input ≡ input.now) }

    // No proposal halts a node: only wanting memory does, or an input without a baseline.
    ensures refused { IfErr result (IsChoiceFault (P.too_large input.now)) }
{
    match offers::choose::<P, AcceptedBaselines, O>(alloc, oracle, input, draws) {
        Ok(made) => Ok(made.offer),
        Err(PassError::NoMemory) => Err(Fault::NoMemory),
        Err(PassError::TooManyRegisters) => Err(Fault::TooManyRegisters),
    }
}
