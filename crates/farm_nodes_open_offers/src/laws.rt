//! What the offers of an opened farm are, as contracts of calls that do nothing else.

ghost use Rattle.std.specs.Prelude.{◌≡◌, ℕ, List, is_some};
ghost use Rattle.acceptor_log_form.specs.declared.record.Record.{Record};
ghost use Rattle.acceptor_log_form.specs.Leaves.{kept_in};
ghost use Rattle.farm_nodes_open_offers.specs.Written.{last_offer_in};
ghost use Rattle.farm_nodes_open_offers.specs.KnownOffers.{KnownAreKept, KnownAreWritten};

use lang_base::Pass;

/// A node has kept that it offered in a room exactly where its records have an offer there.
pub fn offer_is_kept()
    ensures { (rs : List Record) (room : ℕ) → (kept_in rs room).offered ≡ is_some (last_offer_in rs room) }
{}

/// What is known as the offer of a function is what stands in its room among the records.
pub fn known_is_written<P: Pass>()
    ensures { KnownAreWritten P.In.Language P.Out.Language P.Pass }
{}

/// A node has kept that it offered in a room of a pass exactly where an offer of the room's function is known.
pub fn known_is_kept<P: Pass>()
    ensures { KnownAreKept P.In.Language P.Out.Language P.Pass }
{}
