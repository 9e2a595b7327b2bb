ghost use Rattle.std.specs.Prelude.{◌≡◌};

use c_program::{Action, Ending, Target, Term};

/// A loop that is under way: the bound of its turn, its condition, its body, and what is done behind it.
#[derive(Clone, Copy)]
pub struct Cycle<'a> {
    pub bound: u64,
    pub condition: &'a Term,
    pub body: &'a Action,
    pub behind: &'a Action,
}

/// A caller that waits: what the end of the callee's body means, where the callee's word goes, where the
/// caller's locals begin, and what it does then, with its bound.
#[derive(Clone, Copy)]
pub struct Waiting<'a> {
    pub ending: Ending,
    pub target: Target,
    pub base: usize,
    pub bound: u64,
    pub actions: &'a [Action],
}

/// The same actions. Where they begin and how many they are is read and stored a word at a time: one read of both would wait
/// for the two words to be stored.
#[inline(always)]
pub fn same(actions: &[Action]) -> &[Action]
    ensures { result ≡ actions.entry }
{
    actions
}

/// What is left to do behind what is done now.
#[derive(Clone, Copy)]
pub enum Left<'a> {
    /// These actions, with this bound.
    Rest(u64, &'a [Action]),
    /// A loop whose body is done now.
    Body(Cycle<'a>),
    /// A loop at the end of a turn: what is done now stands behind its body.
    Behind(Cycle<'a>),
    /// The caller of the function that runs now.
    Back(Waiting<'a>),
}
