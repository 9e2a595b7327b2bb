/// What a step comes to.
#[derive(Clone, Copy)]
pub(crate) enum Outcome {
    Goes,
    /// `main` returned this word.
    Ends(u32),
    Stops,
    /// The stack has no room.
    Fills,
    Stuck,
}
