use crate::scope::Scope;
use crate::stack::Stack;
use c_program::{Action, Function};

/// A run of a program between two steps.
#[derive(Drop)]
pub struct Machine<'a> {
    pub functions: &'a [Function],
    /// The bound that is left.
    pub bound: u64,
    /// What is done next, with that bound.
    pub actions: &'a [Action],
    /// What is done behind it.
    pub left: Stack<'a>,
    pub scope: Scope,
    /// Space for the words of arguments.
    pub words: Vec<u32>,
}
