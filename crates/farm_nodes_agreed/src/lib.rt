//! What a node of a farm hands to whoever builds the next pass: the function form that it begins with, as bytes.
#![tactic(auto)]

mod chains;
mod forms;

pub use chains::go_on_before;
pub use forms::form_of;
