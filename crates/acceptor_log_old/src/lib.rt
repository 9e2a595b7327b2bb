//! Journals of the two forms that came before: a header of one of two forms, and no summary. They are read, and not written. What
//! their records are migrated to: of each room that they name, its offer and all that is kept of it, room by room; the kept parts, the
//! offers and the order of the records stay as they were.
#![tactic(auto)]

mod header;
mod laws;
mod migrated_laws;
mod reading;

pub use header::{belongs_to_first, has_first_form, old_size};
pub use laws::{even_nodes, no_old_fault, one_old_fault, one_old_header, one_old_list};
pub use migrated_laws::{same_kept, same_offers, still_in_order};
pub use reading::{behind_header, read_old};
