//! What the texts of a function's offers spell.

ghost use Rattle.std.specs.Prelude.{◌≡◌};
ghost use Rattle.bundle_reading.specs.Read.{IsPartsText, both_of, four_found};

use crate::four::Four;
use chains::{Alloc, Cse, Linearize};
use constprop_check::ConstProp;
use lang_base::{FormError, Pass};
use offers::{Offer, PartsOf};
use std::alloc::Global;

/// The parts that a text spells, all of it.
pub fn read_one<P: Pass>(alloc: Global, text: &[u8]) -> Result<PartsOf<P>, FormError>
    ensures { IsPartsText P.In.Language P.Out.Language P.Pass text.now result }
{
    match Offer::<P>::parts(alloc, text) {
        Ok(parts) => Ok(parts),
        Err(fault) => Err(fault),
    }
}

/// What is read of a function's texts for the first two passes.
pub type Front = (
    Result<PartsOf<ConstProp>, FormError>,
    Result<PartsOf<Cse>, FormError>,
);

/// The same for the last two.
pub type Back = (
    Result<PartsOf<Alloc>, FormError>,
    Result<PartsOf<Linearize>, FormError>,
);

/// Both of two, or the first fault.
fn both<A: Drop, B: Drop>(
    found: (Result<A, FormError>, Result<B, FormError>),
) -> Result<(A, B), FormError>
    ensures { result ≡ both_of found.0 found.1 }
{
    let (one, other) = found;
    match one {
        Ok(one) => match other {
            Ok(other) => Ok((one, other)),
            Err(fault) => Err(fault),
        },
        Err(fault) => Err(fault),
    }
}

/// The four of them, or the first fault.
pub fn four_of(front: Front, back: Back) -> Result<Four, FormError>
    ensures { result ≡ four_found (both_of front.0 front.1) (both_of back.0 back.1) }
{
    match both(front) {
        Ok((constants, expressions)) => match both(back) {
            Ok((allocation, order)) => Ok(Four {
                constants,
                expressions,
                allocation,
                order,
            }),
            Err(fault) => Err(fault),
        },
        Err(fault) => Err(fault),
    }
}
