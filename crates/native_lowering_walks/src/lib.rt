//! Runs of native code along its text: what instructions that follow one another do, as one walk.
#![tactic(auto)]
