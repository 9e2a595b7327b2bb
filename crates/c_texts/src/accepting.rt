ghost use Rattle.std.specs.Prelude.{IfOk, IfErr, MatchResult};
ghost use Rattle.c_syntax.specs.Trees.{UnitTree};
ghost use Rattle.c_texts.specs.Accepted.{IsAccepted, IsProgramOf};
ghost use Rattle.c_texts.specs.Refusals.{IsOutOfMemory, IsRefused};

use crate::error::TextError;
use c_checker::check;
use c_checker_rules::CProgram;
use c_lexer::lex;
use c_reader::read;
use std::alloc::Global;

/// The program that a text stands for, or its first fault: of its tokens, else of its tree, else of what the
/// tree declares. The time is linear in the text.
pub fn accept(alloc: Global, text: &[u8]) -> Result<CProgram, TextError>
    // The text is accepted, and this is its program.
    ensures accepted { IfOk result (λ p. (u : UnitTree) × IsAccepted text.now u × IsProgramOf u p) }
    // A refusal says why the text is not accepted.
    ensures refused { IfErr result (λ fault. IsRefused text.now fault) }
    // A text that is accepted is given its program, unless memory runs out.
    ensures only { (u : UnitTree) → IsAccepted text.now u → MatchResult result (IsProgramOf u) IsOutOfMemory }
{
    let tokens = lex(alloc, text)?;
    let unit = read(alloc, tokens.as_slice())?;
    let program = check(alloc, &unit)?;
    Ok(program)
}
