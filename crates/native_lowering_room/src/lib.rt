//! What a bound on the stack changes: a run of native code shows what it shows without one, or that the stack is full.
#![tactic(auto)]
