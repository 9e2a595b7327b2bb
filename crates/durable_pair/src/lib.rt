//! Two disks under one clock, a new one and an old one, so that a crash hits both at one moment: [`Pair`] is their contract.
#![tactic(auto)]

mod pair;

pub use pair::Pair;
