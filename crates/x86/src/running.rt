use lang_running_cells::Cells;
use x86_state::{Registers, Shown, Stack};

/// Where a run stands: the running function's number and the place in its code, its registers, the words that were compared last, the
/// stack, the globals, what was printed, and where the next junk word is drawn from.
#[derive(Drop)]
pub(crate) struct Running {
    pub function: usize,
    pub place: usize,
    pub registers: Registers,
    pub flags: Option<(u32, u32)>,
    pub stack: Stack,
    pub globals: Vec<Cells>,
    pub output: Vec<u8>,
    pub drawn: usize,
}

/// What a run shows at a bound.
#[derive(Drop)]
pub struct Ran {
    pub shown: Shown,
    pub output: Vec<u8>,
}
