//! What options offer that take one of some words.

ghost use Rattle.cfarm_command_line_tasks.specs.Words.{AreChoices};

/// The words that options offer.
#[derive(Clone, Copy)]
pub struct Choices<'a> {
    /// The numbers of nodes that a farm can have.
    pub nodes: &'a [&'a str],
    /// How the nodes' optimisers can choose.
    pub optimise: &'a [&'a str],
    /// The forms in which a refusal can be told.
    pub formats: &'a [&'a str],
    /// The forms of a program that can be written.
    pub forms: &'a [&'a str],
    /// The word for a run without a bound.
    pub unbounded: &'a [&'a str],
}

/// How the bound of a run is said.
#[derive(Clone, Copy)]
pub enum Bounds {
    /// By a number.
    Counted,
    /// By the word for none.
    Unbounded,
}

/// The words that the program's options offer.
pub fn offered<'a>() -> Choices<'a>
    ensures { AreChoices result }
{
    Choices {
        nodes: &["2", "3", "4", "5", "6", "7"],
        optimise: &["drawn", "speed"],
        formats: &["gcc", "json"],
        forms: &["cminor", "rtl", "ltl", "linear", "bundle"],
        unbounded: &["none"],
    }
}
