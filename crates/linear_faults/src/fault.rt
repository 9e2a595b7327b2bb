use crate::cause::Cause;
use lang_base::Row;

/// An instruction: its function's number, and its place in the code.
#[derive(Clone, Copy, Debug, PartialEq, Eq)]
pub struct Site {
    pub function: usize,
    pub place: usize,
}

/// Where and why a run goes wrong.
#[derive(Drop)]
pub struct Fault {
    pub at: Site,
    pub cause: Cause,
    /// The calls that are under way, the innermost first.
    pub calls: Row<Site>,
}
