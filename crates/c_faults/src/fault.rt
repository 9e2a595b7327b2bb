use crate::cause::Cause;
use lang_base::Row;

/// A place of a function.
#[derive(Clone, Copy, Debug, PartialEq, Eq)]
pub struct Site {
    /// The function's number, in the order of the definitions.
    pub function: usize,
    pub place: usize,
}

/// Where a run goes wrong.
#[derive(Drop)]
pub struct Fault {
    pub cause: Cause,
    pub at: Site,
    /// The calls that are under way, the innermost first.
    pub callers: Row<Site>,
}
