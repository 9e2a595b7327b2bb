ghost use Rattle.std.specs.Prelude.{◌≡◌};
ghost use Rattle.farm_nodes_source.specs.Told.{number_of, offset_of};

use c_texts::TextError;
use std::fmt;

/// Why a C text is not compiled. Its text is the line that a user is shown.
#[derive(Debug, PartialEq, Eq, Drop)]
pub enum SourceFault {
    /// A growth of memory was refused.
    NoMemory,
    /// The text is no program: its first fault, or that there was no memory to find it.
    Text(TextError),
    /// The function of this name needs more than 65,535 nodes, the first that does (240).
    TooManyNodes(String),
}

impl SourceFault {
    /// The number that a user is shown.
    pub fn number(&self) -> u16
        ensures { result ≡ number_of self.now }
    {
        match self {
            SourceFault::NoMemory => 1,
            SourceFault::Text(fault) => fault.number(),
            SourceFault::TooManyNodes(_) => 240,
        }
    }

    /// The byte offset in the text that it is about; none where memory was refused, or where it is about a function.
    pub fn offset(&self) -> Option<usize>
        ensures { result ≡ offset_of self.now }
    {
        match self {
            SourceFault::NoMemory | SourceFault::TooManyNodes(_) => None,
            SourceFault::Text(fault) => fault.offset(),
        }
    }
}

impl fmt::Display for SourceFault {
    ghost use Rattle.std.specs.Prelude.{Some};
    ghost use Rattle.farm_nodes_source.specs.Told.{source_line};

    ghost output = { λ fault. Some (source_line fault) };

    fn fmt<W: fmt::Write>(&self, f: &mut fmt::Formatter<W>) -> fmt::Result {
        match self {
            SourceFault::NoMemory => write!(f, "memory"),
            SourceFault::Text(fault) => write!(f, "{fault}"),
            SourceFault::TooManyNodes(name) => write!(f, "refused 240 TooManyNodes in {name}"),
        }
    }
}

impl std::error::Error for SourceFault {}
