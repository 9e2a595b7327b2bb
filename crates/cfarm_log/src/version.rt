ghost use Rattle.std.specs.Prelude.{◌≡◌};
ghost use Rattle.cfarm_log.specs.Forms.{has_version, version_number};

use acceptor_log_form::Record;

/// The versions of a journal.
#[derive(Clone, Copy, Debug, PartialEq, Eq)]
pub enum Version {
    /// Its first bytes are `CFJ1` or `CFJF`; it is only read.
    Old,
    /// Its first bytes are `CFJ2`.
    New,
}

impl Version {
    /// The number that a user is shown.
    pub fn number(self) -> u8
        ensures { result ≡ version_number self }
    {
        match self {
            Version::Old => 1,
            Version::New => 2,
        }
    }

    /// Whether it has such records: the old one has no summary.
    pub(crate) fn has(self, entry: &Record) -> bool
        ensures { result ≡ has_version self entry.now }
    {
        match (self, entry) {
            (Version::Old, Record::Summary(_, _, _, _)) => false,
            _ => true,
        }
    }
}
