/// A pseudo-register, by its number: each function says how many it has.
pub type Register = u16;
