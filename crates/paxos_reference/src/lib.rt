//! A slow reference of one room: its world as plain lists, whether a step is allowed in it, found by searching those
//! lists, and the world after the step. Promises that both are exactly the definitions of worlds and steps.
#![tactic(auto)]

pub mod label;
mod may;
mod sent;
mod shown;
mod take;
pub mod world;
