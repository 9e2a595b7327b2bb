//! A farm of compiler nodes over one C text. Its nodes come from their journals, take turns on threads, one at a time in each of four
//! rooms a function, meet, come back after a failure, and link the offers that they have learned. What nodes link that met, and all of
//! whose functions were counted, is one program, which does exactly what the C program does.
#![tactic(auto)]

mod error;
mod farm;
mod giving;
mod law;
mod laws;
mod nodes;

pub use error::FarmError;
pub use farm::Farm;
pub use farm_nodes_link::{
    FarmNode, Halted, LinkError, LinkedError, Turn, has_learned_function, learned_offer, linked,
    one_program,
};
pub use farm_nodes_meet_nodes::{are_strangers, meet_nodes};
pub use farm_nodes_open_nodes::{OpenFault, RoomFault};
pub use farm_nodes_source::{Source, SourceFault, prepare};
pub use farm_nodes_threads::{NumberedSeat, Oracles, run_threads};
pub use farm_nodes_threads_teams::RunError;
pub use giving::{Optimisers, Optimising, optimisers_of};
pub use law::stays_small;
pub use laws::linked_by_both;
