/// What follows where a run stands.
pub enum Step {
    Goes,
    /// It goes on, and the byte is printed, which nobody sees here.
    Prints(u8),
    Ends(u32),
    /// The step has no answer.
    Fails,
}
