ghost use Rattle.paxos_core_late_offers.specs.LateOffer.{OffersMayBeLate, OthersLeaveIt};

/// What holds of a node whose offer stands in a cell of its own, which the world does not show; it does nothing.
pub fn late_offers()
    // The run has the offer at the latest together with the proposal of the node's own number.
    ensures calls { OffersMayBeLate }

    // What other nodes do meanwhile leaves the node in its world.
    ensures others { OthersLeaveIt }
{}
