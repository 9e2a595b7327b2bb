/// What a call or a return does to a run.
pub enum Turn {
    /// The run goes on, in a function that begins or in one that waited.
    Goes,
    /// `main` returned this.
    Ends(u32),
    /// The run goes wrong.
    Fails,
}
