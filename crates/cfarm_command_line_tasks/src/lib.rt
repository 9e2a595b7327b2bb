//! What a command line can ask for, as the type `Task`, and the words that options offer. The grammar of all commands stands once, in the
//! definitions.
#![tactic(auto)]

mod choices;
mod task;

pub use choices::{Bounds, Choices, offered};
pub use task::{
    Asked, Explaining, Format, FsckOptions, NativeOptions, OfferAt, Showing, Task, VerifyPaths,
    Written,
};
