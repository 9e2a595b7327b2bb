//! One turn of a node in one room: it offers, hears every node, leads and takes part, and fetches what was learned. What an optimiser
//! proposes is checked, and replaced by the baseline where the pass does not accept it; a ballot is started now and then; each step's
//! record stands in the journal before the step is taken.
#![tactic(auto)]

mod choosing;
mod input;
mod offering;
mod playing;
mod progress;

pub use choosing::choose;
pub use farm_nodes_turn_offer::{Fault, Halt, Seat};
pub use input::learned_output;
pub use offering::offer_on;
pub use playing::play;
pub use progress::Progress;
