//! Whole programs explained.

ghost use Rattle.std.specs.Prelude.{◌≡◌, IfOk};
ghost use Rattle.cfarm_explain_linked.specs.Explained.{told_of};

use crate::lines::push_fault;
use lang_base::{NoMemory, Program, Row};
use linear_faults_search::find_fault;
use linear_language::Function;
use std::alloc::Global;

/// What is told of a program's run of so many instructions: where it goes wrong and why, with the calls that are under way. Nothing where
/// it does not go wrong.
pub fn explain_linked(
    alloc: Global,
    path: &[u8],
    program: &Program<Function>,
    limit: u64,
) -> Result<Option<Row<u8>>, NoMemory>
    ensures { IfOk result (λ told. told ≡ told_of path.now program.now limit) }
{
    match find_fault(alloc, program, limit)? {
        None => Ok(None),
        Some(fault) => {
            let mut out = Vec::new(alloc);
            push_fault(&mut out, path, program, &fault)?;
            Ok(Some(Row::from_vec(out)))
        }
    }
}
