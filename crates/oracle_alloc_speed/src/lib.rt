//! An optimiser that proposes for the third pass and tries to make code that runs fast; nobody trusts it. The parts of a
//! register's life that no edge connects lie apart (webs); webs between which a move stands lie in one location where they
//! may; and what is named most in loops lies in registers of the machine. It promises nothing of what it proposes.
#![tactic(auto)]

mod certificate;
mod classes;
mod gathering;
mod joining;
mod limits;
mod lists;
mod placing;
mod propose;
mod slots;

pub use oracle_webs::AllocOracle;
pub use propose::AllocSpeed;
