use crate::item::Running;
use crate::pile::Pile;
use c_meaning_machine::Scope;
use c_program::Function;
use lang_base::Row;

/// A run of a program between two steps.
#[derive(Drop)]
pub struct Tracer<'a> {
    pub functions: &'a [Function],
    /// The places of each function: of its end, and then of its parts.
    pub places: &'a [Row<usize>],
    pub running: Running,
    pub items: Pile<'a>,
    pub scope: Scope,
    /// Space for the words of arguments.
    pub words: Vec<u32>,
}
