/// What a run of native code shows at a bound. What it has printed so far stands beside it.
#[derive(Clone, Copy, Debug, PartialEq, Eq)]
pub enum Shown {
    /// The bound was reached.
    Running,
    /// `main` returned this word.
    Ended(u32),
    /// A stop was reached: what the program does has no meaning.
    Wrong,
    /// The stack had no room.
    Full,
    /// The code did what its definition leaves open.
    Stuck,
}
