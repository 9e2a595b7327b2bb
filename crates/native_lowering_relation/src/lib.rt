//! When a state of native code stands for one of Linear: where each is, what the registers hold, and how the stack is laid out.
#![tactic(auto)]
