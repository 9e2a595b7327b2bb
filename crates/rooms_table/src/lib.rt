//! The table of a family of rooms: the words of a few rooms of the same nodes, side by side. Its rule is the rule of each room's
//! words; a step in one room keeps that of the others, whose words and views it leaves as they are. A room alone is a family
//! of one. Where a word stands is told by one function of its room, and read back by another.
#![tactic(auto)]

pub mod play;
pub mod rule;
pub mod view;
