use lang_running::Stop;
use linear_run_calls::{Callers, Standing};

/// A run: where it stands, the words of all functions that run, one function's behind its caller's, the callers, and why it
/// stands still.
#[derive(Drop)]
pub(crate) struct Run {
    pub here: Standing,
    pub words: Vec<Option<u32>>,
    pub callers: Callers,
    pub why: Stop,
}
