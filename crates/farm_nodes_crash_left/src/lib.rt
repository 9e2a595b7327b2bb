//! What a crash of all nodes of a farm leaves on their pairs of disks, and the offers in it: each is one that was made, and that its pass accepts.
#![tactic(auto)]
