use c_reader_tokens::Fault;
use std::alloc::AllocFailed;

/// Why a declaration is not read.
#[derive(Clone, Copy, Debug, PartialEq, Eq)]
pub struct Misread {
    pub fault: Fault,
    /// The byte offset of the initial expression that is too high; none where a function is.
    pub initial: Option<usize>,
}

impl From<Fault> for Misread {
    ghost use Rattle.std.specs.Prelude.{◌≡◌, None};

    ghost from_gives = { λ e m. (m.fault ≡ e) × (m.initial ≡ None) };

    fn from(fault: Fault) -> Misread {
        Misread {
            fault,
            initial: None,
        }
    }
}

impl<T: Drop> From<AllocFailed<T>> for Misread {
    ghost use Rattle.std.specs.Prelude.{◌≡◌};
    ghost use Rattle.c_reader_tokens.specs.declared.fault.Fault.TheVariants.{NoMemory};

    ghost from_gives = { λ _ m. m.fault ≡ NoMemory };

    fn from(_e: AllocFailed<T>) -> Misread {
        Misread {
            fault: Fault::NoMemory,
            initial: None,
        }
    }
}
