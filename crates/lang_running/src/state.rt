use crate::callers::Callers;

/// Where a run stands: the running function's number, the place in it, the words of all functions that run, and where
/// its own begin, and the callers. Each function's words lie behind those of its caller. The globals are apart: they are
/// lent to all that runs, once for the whole run.
#[derive(Drop)]
pub(crate) struct Running<P: Drop, T: Drop> {
    pub function: usize,
    pub place: P,
    pub base: usize,
    pub words: Vec<Option<u32>>,
    pub callers: Callers<P, T>,
}
