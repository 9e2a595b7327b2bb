use c_checker_rules::CProgram;
use lang_base::Program;
use rtl_language::Function;
use std::sync::Arc;

/// A C text made ready to be compiled by many nodes.
#[derive(Drop)]
pub struct Source {
    /// The checked program.
    pub program: CProgram,
    /// Its translation to RTL, which the nodes share: a function of it for each function of the program, in order.
    pub translated: Arc<Program<Function>>,
    /// The SHA-256 of the text.
    pub digest: [u8; 32],
}
