use c_checker_rules::CProgram;
use lang_base::Program;
use rtl_language::Function;
use std::sync::Arc;

/// A C text made ready for the first pass, without its digest.
#[derive(Drop)]
pub struct Begun {
    /// The checked program.
    pub program: CProgram,
    /// Its translation to RTL.
    pub translated: Arc<Program<Function>>,
}
