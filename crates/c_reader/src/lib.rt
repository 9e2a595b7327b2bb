//! Reading a whole C text from its tokens (C99 6.7 and 6.9): the tree that the tokens spell, or the first fault from the
//! front. No function and no initial expression is read that is higher than 200.
#![tactic(auto)]

mod declarations;
mod errors;
mod globals;
mod misread;
mod parameters;
mod reading;

pub use declarations::read_declaration;
pub use errors::ReadError;
pub use misread::Misread;
pub use reading::read;
