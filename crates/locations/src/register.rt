/// One of the machine's registers r0 to r7, by its number: every function's registers are below
/// `REGISTER_COUNT`.
pub type Register = u8;

/// How many registers there are.
pub const REGISTER_COUNT: u8 = 8;
