//! What a seat holds of its room's words and knows of its room, what it knows once it has looked at all words, and what two seats
//! know once they have met; how rooms that can be opened open in a table. Definitions and lemmas alone, on which the calls of a
//! seat stand.
#![tactic(auto)]

pub use rooms_rights::{Rights, SeenWords, open_four, open_one};
pub use rooms_seat_state::{act, view};
