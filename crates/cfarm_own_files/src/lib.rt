//! The files that a build has in its folder, by what they are and not by their names alone: the paths that it is given and that lead to one of these,
//! or at which no file may be put, are found before anything is made. So is a path at which what another command puts would take the place of what
//! it reads.
#![tactic(auto)]

mod barring;
mod keeping;
mod own;

pub use barring::barred;
pub use keeping::is_kept;
