//! The offers of a function, one for each pass.

ghost use Rattle.chains.specs.Lent.{IsLent};

use linker::{Alloc, Chain, ConstProp, Cse, Linearize};
use offers::Offer;

/// The four offers of a function, one for each pass. Whether each goes on from the one before it, the
/// linking finds out.
#[derive(Drop)]
pub struct Offers {
    pub constants: Offer<ConstProp>,
    pub expressions: Offer<Cse>,
    pub allocation: Offer<Alloc>,
    pub order: Offer<Linearize>,
}

impl Offers {
    /// The offers, lent.
    pub fn chain(&self) -> Chain<'_>
        ensures { IsLent self.now result }
    {
        Chain {
            first: &self.constants,
            second: &self.expressions,
            third: &self.allocation,
            fourth: &self.order,
        }
    }
}
