//! Whole texts explained.

ghost use Rattle.std.specs.Prelude.{IfOk, IfErr};
ghost use Rattle.c_texts.specs.Refusals.{IsRefused};
ghost use Rattle.cfarm_explain.specs.Explained.{TellsRun, IsExplained};

use crate::lines::push_fault;
use c_checker::check;
use c_checker_rules::{CProgram, CheckError};
use c_faults_places::places_of;
use c_faults_search::find_fault;
use c_lexer::lex;
use c_reader::read;
use c_syntax::{Declaration, Token};
use c_texts::TextError;
use lang_base::{NoMemory, Row};
use std::alloc::Global;

/// What is told of a program's run with this bound, by the declarations and the tokens of its text.
fn told_of(
    alloc: Global,
    path: &[u8],
    text: &[u8],
    tokens: &[Token],
    declarations: &[Declaration],
    program: &CProgram,
    depth: u64,
) -> Result<Option<Row<u8>>, NoMemory>
    ensures { IfOk result (TellsRun path.now text.now tokens.now declarations.now program.now depth) }
{
    let functions = program.functions();
    let globals = program.globals();
    let places = places_of(alloc, declarations, functions, tokens)?;
    let fault = find_fault(alloc, program, &places, depth)?;
    match fault {
        None => Ok(None),
        Some(fault) => {
            let mut out = Vec::new(alloc);
            push_fault(&mut out, path, text, globals, functions, &fault)?;
            Ok(Some(Row::from_vec(out)))
        }
    }
}

/// What is told of the run of a text's program with this bound: where it goes wrong and why, with the calls that are under way.
/// Nothing where it does not go wrong.
pub fn explain(
    alloc: Global,
    path: &[u8],
    text: &[u8],
    depth: u64,
) -> Result<Option<Row<u8>>, TextError>
    ensures told { IfOk result (IsExplained path.now text.now depth) }
    // A refusal says why the text is not accepted.
    ensures refused { IfErr result (λ fault. IsRefused text.now fault) }
{
    let tokens = lex(alloc, text)?;
    let unit = read(alloc, tokens.as_slice())?;
    let program = check(alloc, &unit)?;
    match told_of(
        alloc,
        path,
        text,
        tokens.as_slice(),
        unit.declarations(),
        &program,
        depth,
    ) {
        Ok(told) => Ok(told),
        Err(_) => Err(TextError::Check(CheckError::NoMemory)),
    }
}
