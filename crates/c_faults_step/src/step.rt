use c_faults::Gap;
use c_program::Target;

/// What comes next in a run.
#[derive(Clone, Copy)]
pub enum Step {
    /// The run goes on.
    Goes,
    /// The byte is printed, and goes to the target, at this place.
    Prints(u8, Target, usize),
    /// The run goes wrong in the running function.
    Wrong(Gap),
    /// The run is over, or its bound is spent.
    Over,
}
