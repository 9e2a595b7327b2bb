ghost use Rattle.std.specs.Prelude.{◌≡◌, IfOk};
ghost use Rattle.std.specs.List.{AllByRecursion};
ghost use Rattle.bundle_reading.specs.Read.{offers_in, offers_of};
ghost use Rattle.chains.specs.Accepted.{AreAccepted};

use crate::four::Four;
use chains::Offers;
use lang_base::NoMemory;
use offers::Offer;
use std::alloc::Global;

/// The offers of these parts, which their passes accept; takes no memory.
fn known(four: Four) -> Offers
    requires { AreAccepted (offers_of four) }
    ensures { result ≡ offers_of four }
{
    let Four {
        constants,
        expressions,
        allocation,
        order,
    } = four;
    Offers {
        constants: Offer::known(constants.input, constants.output, constants.certificate),
        expressions: Offer::known(
            expressions.input,
            expressions.output,
            expressions.certificate,
        ),
        allocation: Offer::known(allocation.input, allocation.output, allocation.certificate),
        order: Offer::known(order.input, order.output, order.certificate),
    }
}

/// The offers of all functions' parts, which their passes accept.
pub fn known_all(alloc: Global, fours: Vec<Four>) -> Result<Vec<Offers>, NoMemory>
    requires { AllByRecursion AreAccepted (offers_in fours.items) }
    ensures { IfOk result (λ offers. offers.items ≡ offers_in fours.items) }
{
    let mut offers = Vec::new(alloc);
    for four in fours {
        offers.push(known(four))?;
    }
    Ok(offers)
}
