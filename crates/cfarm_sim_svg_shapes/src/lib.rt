//! What a drawing of a schedule in SVG (W3C, Scalable Vector Graphics 1.1) consists of: the lanes of the nodes, a row for each command, an arrow
//! for each message that is handed over, and labels, which are lines that `cfarm_sim` prints.
#![tactic(auto)]

mod elements;
mod frame;
mod labels;
mod marks;
mod origin;
mod rows;

pub use elements::Arrow;
pub use frame::{add_foot, head_of};
pub use labels::labels_are_lines;
pub use marks::Mark;
pub use origin::Origin;
pub use rows::{add_row, node_of};
