use locations::Location;
use rtl_passes::Register;

/// What an instruction and the body that stands for it define.
#[derive(Clone, Copy)]
pub enum Change {
    /// Neither defines anything.
    Nothing,
    /// The register and the location get one word.
    Defines {
        register: Register,
        location: Location,
    },
    /// The instruction alone defines the register.
    Drops {
        register: Register,
    },
    /// The instruction copies a register; the body does nothing.
    Copies {
        target: Register,
        source: Register,
    },
}
