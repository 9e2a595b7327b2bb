/// Why a run stands still for now.
#[derive(Clone, Copy, Debug, PartialEq, Eq)]
pub enum Stop {
    /// The bound is reached.
    Spent,
    /// The byte is to be printed.
    Printed(u8),
    /// Nothing is to be printed.
    Paused,
    /// `main` returned this.
    Ended(u32),
    Failed,
}
