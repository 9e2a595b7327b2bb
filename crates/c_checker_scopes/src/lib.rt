//! The table of names that a C checker keeps (C99 6.2.1, scopes of identifiers): which declaration a name means where
//! scopes nest. A name is looked up and bound in expected constant time, and a scope is left in the number of names
//! that it bound.
#![tactic(auto)]

mod binding;
mod scopes;
mod symbols;

pub use binding::Binding;
pub use lang_base::{NoMemory, Row};
pub use scopes::Scopes;
