ghost use Rattle.std.specs.Prelude.{◌↔◌, ℕ, List, IsTrue};
ghost use Rattle.lang_base.specs.Reading.{Reading, IsRead};
ghost use Rattle.lang_base.specs.Texts.{Appends};

use lang_base::{FormError, NoMemory};

/// What rows of a pass are made of.
pub trait Entries {
    /// What is said at a node.
    type Entry: Drop;

    /// The size of what entries name, as the number of registers.
    type Size: Copy + Drop;

    /// How an entry is read, among so many.
    ghost part: { Self.Size → Reading Self.Entry };

    /// The bytes of an entry.
    ghost text: { Self.Entry → List ℕ };

    /// Entries that can be those of a row: few, in range and in order.
    ghost in_order: { Self.Size → List Self.Entry → Type 0 };

    /// Reads an entry, and goes on behind it.
    fn read_entry(size: Self::Size, bytes: &mut &[u8]) -> Result<Self::Entry, FormError>
        ensures { IsRead (part size bytes.old.now) result bytes.new.now };

    /// Writes the entry at the end of `out`; where memory runs out, a beginning of it is written.
    fn push_entry(out: &mut Vec<u8>, entry: &Self::Entry) -> Result<(), NoMemory>
        ensures { Appends result (text entry.now) out.old.items out.new.items };

    /// Whether the entries can be those of a row.
    fn are_in_order(size: Self::Size, entries: &[Self::Entry]) -> bool
        ensures { IsTrue result ↔ in_order size entries.now };
}
