use c_program::{Action, Term};

/// One of two actions, by a condition, with their places: those of the condition first.
#[derive(Clone, Copy)]
pub struct Choice<'a> {
    pub condition: &'a Term,
    pub then: &'a Action,
    pub other: &'a Action,
    pub places: &'a [usize],
}
