use crate::callers::Callers;
use crate::words::Words;
use lang_running_cells::Cells;

/// Where a run stands: the running function's number, the place in it, its words, the cells of the globals, and the callers.
#[derive(Drop)]
pub struct Run {
    pub function: usize,
    pub place: usize,
    pub words: Words,
    pub globals: Vec<Cells>,
    pub callers: Callers,
}
