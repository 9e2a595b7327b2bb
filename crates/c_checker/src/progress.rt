use c_checker_declarations::{Functions, Here};
use c_program::GlobalVariable;

/// What is known of a text behind some of its declarations: its names, its functions' signatures and bodies,
/// the globals so far, and what was made of the functions with bodies so far.
#[derive(Drop)]
pub struct Progress<F> {
    pub here: Here,
    pub functions: Functions,
    pub globals: Vec<GlobalVariable>,
    pub defined: Vec<F>,
    /// The cells of all globals so far.
    pub cells: usize,
}
