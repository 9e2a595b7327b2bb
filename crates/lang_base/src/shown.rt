/// What a run shows at a bound. What it has printed so far stands beside it.
#[derive(Clone, Copy, Debug, PartialEq, Eq)]
pub enum Shown {
    /// The bound was reached.
    Running,
    /// `main` ended with this result.
    Ended(u32),
    /// The run did what its language leaves without a meaning.
    Wrong,
}
