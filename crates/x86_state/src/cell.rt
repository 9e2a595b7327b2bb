/// Where code goes on: the number of a function, and the place in its code.
#[derive(Clone, Copy)]
pub struct Spot {
    pub function: usize,
    pub place: usize,
}

/// A cell of the stack.
#[derive(Clone, Copy)]
pub enum Cell {
    Word(u32),
    /// Where a function goes back to; none for the one that the run began with.
    Back(Option<Spot>),
}
