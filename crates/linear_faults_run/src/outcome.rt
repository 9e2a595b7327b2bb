/// What came of a plain instruction.
pub enum Outcome {
    Done,
    /// The byte is printed, which nobody sees here.
    Printed(u8),
    /// It has no answer.
    Failed,
}
