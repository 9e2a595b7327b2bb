//! What one thread does with the nodes that it is to ask for turns: it goes round among them, and asks each for a turn in the next of
//! its rooms, but for those that are too far ahead of the others, and those that wait for another's step. Each is at last as so many
//! turns left it. A pace, which threads share, decides who goes on; no contract rests on it.
#![tactic(auto)]

mod cursor;
mod pace;
mod patience;
mod player;
mod rounds;
mod turns;

pub use pace::Pace;
pub use player::Player;
pub use rounds::take_turns;
pub use turns::{Outcome, TakesTurns};
