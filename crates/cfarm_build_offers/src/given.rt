//! The offers that stood in files.

ghost use Rattle.std.specs.Prelude.{◌≡◌, slice_get, IfSome};
ghost use Rattle.cfarm_build_offers.specs.Proposed.{HasTaken, IsOfFunction};

use crate::fault::GivenFault;
use constprop_check::ConstProp;
use cse_check::Cse;
use farm_nodes_turn_passes::Alloc;
use lang_base::{Language, Pass};
use linearize_check::Linearize;
use offers::PartsOf;

/// An offer of a file. Its parts are there, where it can be used, until they are proposed.
#[derive(Drop)]
pub struct Given<P: Pass> {
    /// The number of the function whose name the file has.
    pub number: u16,
    pub path: String,
    pub parts: Option<PartsOf<P>>,
    pub fault: Option<GivenFault>,
}

/// The offers of a pass that a node is given: at most one for each function.
#[derive(Drop)]
pub struct PassOffers<P: Pass> {
    pub given: Vec<Given<P>>,
}

/// The offers that a node is given.
#[derive(Drop)]
pub struct NodeOffers {
    pub constants: PassOffers<ConstProp>,
    pub expressions: PassOffers<Cse>,
    pub allocation: PassOffers<Alloc>,
    pub order: PassOffers<Linearize>,
}

/// The output and the certificate of this offer, if it can be used, was not proposed before, and its input is this one. One of another
/// input is not used, and that is its fault from now on.
fn taken<P: Pass>(
    given: &mut Given<P>,
    input: &<P::In as Language>::Fun,
) -> Option<(<P::Out as Language>::Fun, P::Cert)>
    ensures number { given.new.number ≡ given.old.number }
    ensures parts { IfSome result (HasTaken given.old.parts input.now) }
{
    let Some(parts) = given.parts.take() else {
        return None;
    };
    if &parts.input != input {
        given.fault = Some(GivenFault::Unchained);
        return None;
    }
    Some((parts.output, parts.certificate))
}

/// Where the offer for the function of this number stands.
fn place_of<P: Pass>(given: &[Given<P>], number: u16) -> Option<usize>
    ensures { IfSome result (λ place. IfSome (slice_get given.now place) (λ it. it.number ≡ number)) }
{
    for place in 0..given.len() {
        if given[place].number == number {
            return Some(place);
        }
    }
    None
}

impl<P: Pass> PassOffers<P> {
    /// Those of the offer for the function of this number, if it can be used for this input. An equal input of another function is no use.
    pub(crate) fn next_for(
        &mut self,
        number: u16,
        input: &<P::In as Language>::Fun,
    ) -> Option<(<P::Out as Language>::Fun, P::Cert)>
        ensures { IfSome result (IsOfFunction number input.now self.old.given.items) }
    {
        let Some(place) = place_of(&self.given, number) else {
            return None;
        };
        let Some(given) = self.given.get_mut(place) else {
            return None;
        };
        taken::<P>(given, input)
    }
}
