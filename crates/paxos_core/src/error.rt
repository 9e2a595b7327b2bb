ghost use Rattle.std.specs.Prelude.{◌≡◌};

use std::error::Error;
use std::fmt;

/// Why a node can't start a ballot.
#[derive(Clone, Copy, Debug, PartialEq, Eq)]
pub enum CoreError {
    /// None of the node's own ballots is left.
    BallotsSpent,
}

impl CoreError {
    /// The number by which the refusal is told.
    pub fn number(&self) -> u16
        ensures { result ≡ 501 }
    {
        match self {
            CoreError::BallotsSpent => 501,
        }
    }
}

impl fmt::Display for CoreError {
    ghost use Rattle.std.specs.Prelude.{Some, codes};

    ghost output = { λ _. Some (codes "501 BallotsSpent") };

    fn fmt<W: fmt::Write>(&self, f: &mut fmt::Formatter<W>) -> fmt::Result {
        match self {
            CoreError::BallotsSpent => write!(f, "501 BallotsSpent"),
        }
    }
}

impl Error for CoreError {}
