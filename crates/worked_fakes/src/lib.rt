//! What rows of command lines run over: files, writers and a meter in memory; the text that a row spells, and how what was written is shown.
#![tactic(auto)]

mod given;
mod held;
mod masking;
mod quiet;
mod showing;
mod texts;

pub use given::{Given, Put};
pub use held::Held;
pub use masking::masked;
pub use quiet::Quiet;
pub use showing::shown;
pub use texts::text_of;
