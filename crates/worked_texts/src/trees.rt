//! What the readers give of tokens, and what they leave behind it.

use c_reader::{read, read_declaration};
use c_reader_statements::read_block;
use c_syntax::{Declaration, Statement, Token};
use std::alloc::Global;
use worked_row_files::{fine, owned};

/// To which of two ifs an else belongs.
fn else_of(statements: &[Statement]) -> &'static str {
    match statements {
        [Statement::If(_, inner)] => match &**inner {
            Statement::IfElse(_, _, _) => "inner",
            _ => "other",
        },
        _ => "outer",
    }
}

/// How many statements a block has, and how many tokens are left; or to which of two ifs an else belongs.
pub fn block_told(alloc: Global, tokens: &[Token], is_else: bool) -> Option<String> {
    let (statements, rest) = fine!(read_block(alloc, 199, tokens));
    if is_else {
        return owned(alloc, else_of(&statements));
    }
    format!(in alloc; "{} {}", statements.len(), rest.len()).ok()
}

/// Which declaration the tokens begin with, and how many are left.
pub fn declaration_told(alloc: Global, tokens: &[Token]) -> Option<String> {
    let (declaration, rest) = fine!(read_declaration(alloc, tokens));
    let kind = match &declaration {
        Declaration::Global(_) => "global",
        _ => "other",
    };
    format!(in alloc; "{kind} {}", rest.len()).ok()
}

/// How many declarations a text has, and its end.
pub fn unit_told(alloc: Global, tokens: &[Token]) -> Option<String> {
    let unit = fine!(read(alloc, tokens));
    format!(in alloc; "{} {}", unit.declarations().len(), unit.end()).ok()
}
