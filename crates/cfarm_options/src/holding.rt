//! What the two files of a node hold, by their bytes.

ghost use Rattle.std.specs.Prelude.{◌≡◌};
ghost use Rattle.cfarm_options.specs.Holding.{holds_nothing, holds_records};

/// How many bytes a journal without records has at most.
const BARE: usize = 41;

/// Whether neither of the two files of a node has bytes: there is no journal of it.
pub fn holds_nothing(new: &[u8], old: &[u8]) -> bool
    ensures { result ≡ holds_nothing new.now old.now }
{
    new.len() == 0 && old.len() == 0
}

/// Whether one of them has more bytes than a journal without records. No crash of a farm leaves this of one node and nothing of another: all
/// journals are begun before the first record is put.
pub fn holds_records(new: &[u8], old: &[u8]) -> bool
    ensures { result ≡ holds_records new.now old.now }
{
    BARE < new.len() || BARE < old.len()
}
