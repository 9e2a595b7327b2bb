use locations::Location;
use rtl_passes::Register;

/// At a node the location holds the register's word, where the register has one.
#[derive(Clone, Copy)]
pub struct Equation {
    pub register: Register,
    pub location: Location,
}
