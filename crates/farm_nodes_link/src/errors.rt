ghost use Rattle.std.specs.Prelude.{◌≡◌};
ghost use Rattle.farm_nodes_link.specs.Refused.{number_of_linked_error};

use linker::LinkError;
use std::fmt;

/// Why a node links no program.
#[derive(Clone, Copy, Debug, PartialEq, Eq)]
pub enum LinkedError {
    /// In one of the rooms the node has learned nothing, or it has not seen the offer.
    Undecided,
    /// What it has learned is not linked.
    Link(LinkError),
}

impl LinkedError {
    /// The number that a user is shown.
    pub fn number(self) -> u16
        ensures { result ≡ number_of_linked_error self }
    {
        match self {
            LinkedError::Undecided => 520,
            LinkedError::Link(fault) => fault.number(),
        }
    }
}

impl fmt::Display for LinkedError {
    fn fmt<W: fmt::Write>(&self, f: &mut fmt::Formatter<W>) -> fmt::Result {
        match self {
            LinkedError::Undecided => write!(f, "Undecided"),
            LinkedError::Link(fault) => write!(f, "{fault}"),
        }
    }
}

impl std::error::Error for LinkedError {}
