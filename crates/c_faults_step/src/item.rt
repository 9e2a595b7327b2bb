use c_program::{Action, Ending, Target, Term};

/// The function that runs: its number, what its end means, and the place of its end.
#[derive(Clone, Copy)]
pub struct Running {
    pub function: usize,
    pub ending: Ending,
    pub end: usize,
}

/// A loop that is under way: the bound of its turn, its condition, its body, what is done behind it, and their places.
#[derive(Clone, Copy)]
pub struct Cycle<'a> {
    pub bound: u64,
    pub condition: &'a Term,
    pub body: &'a Action,
    pub last: &'a Action,
    pub places: &'a [usize],
}

/// A caller that waits: its function, where the callee's word goes, the place of the call, and where its locals begin.
#[derive(Clone, Copy)]
pub struct Waiting {
    pub running: Running,
    pub target: Target,
    pub place: usize,
    pub base: usize,
}

/// What is left to do behind what is done now.
#[derive(Clone, Copy)]
pub enum Item<'a> {
    /// These actions, with this bound and their places.
    Do(u64, &'a [Action], &'a [usize]),
    /// A loop whose body is done now.
    Body(Cycle<'a>),
    /// A loop at the end of a turn: what is done now stands behind its body.
    Last(Cycle<'a>),
    /// The caller of the function that runs now.
    Back(Waiting),
}
