//! Words of native code keep to 32 bits: the words that the lowering writes into code do, and each step keeps those of a state so.
#![tactic(auto)]
