/// Where a run stands: the place among those of all functions, and where the words of the running function begin and end.
#[derive(Clone, Copy)]
pub struct Standing {
    pub at: usize,
    pub base: usize,
    pub top: usize,
}
