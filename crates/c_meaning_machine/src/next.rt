use c_program::Target;
use lang_base::Shown;

/// What comes next in a run.
#[derive(Clone, Copy)]
pub enum Next {
    /// The machine goes on.
    Goes,
    /// The byte is printed, and goes to the target.
    Prints(u8, Target),
    /// The run is over, or its bound is spent.
    Stops(Shown),
}
