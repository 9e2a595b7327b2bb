//! Meetings of the nodes of a farm, one after another, in the rooms of all functions: each two neighbours, forth and back.
#![tactic(auto)]
