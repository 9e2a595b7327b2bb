//! A schedule of the nodes of a room as a drawing in SVG (W3C, Scalable Vector Graphics 1.1): a lane for each node, a row for each command, an
//! arrow for each message that is handed over. Its labels are the lines that `cfarm_sim::simulate` prints.
#![tactic(auto)]

mod drawing;
mod playing;

pub use drawing::draw;
