//! Native code is never stuck, whether Linear goes wrong or not: each state that stands at a block comes to another, or the run ends or stops.
#![tactic(auto)]
