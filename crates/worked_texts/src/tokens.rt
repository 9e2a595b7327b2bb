//! What the lexer and the readers say of texts.

use crate::expressions::{expression_told, height_told};
use crate::trees::{block_told, declaration_told, unit_told};
use c_lexer::lex;
use c_syntax::{Token, TokenKind};
use std::alloc::{AllocError, Global};
use worked_row_files::{done, fine};

fn push_token(out: &mut String, token: &Token) -> Result<(), AllocError> {
    let start = token.start;
    let end = token.end;
    match &token.kind {
        TokenKind::Name(_) => done!(out.push_str("name")),
        TokenKind::Keyword(keyword) => done!(write!(out, "{keyword:?}")),
        TokenKind::Punctuator(punctuator) => done!(write!(out, "{punctuator:?}")),
        TokenKind::Constant(constant) => {
            let value = constant.value;
            let kind = constant.kind;
            done!(write!(out, "{value} {kind:?}"))
        }
    }
    write!(out, " {start}-{end};")
}

/// Each token with its offsets.
fn all_told(alloc: Global, tokens: &[Token]) -> Option<String> {
    let mut out = String::new(alloc);
    for token in tokens {
        fine!(push_token(&mut out, token));
    }
    Some(out)
}

/// The answer to a question about tokens.
fn tokens_told(alloc: Global, asked: &str, tokens: &[Token]) -> Option<String> {
    match asked {
        "tokens" => all_told(alloc, tokens),
        "expression" => expression_told(alloc, tokens),
        "height" => height_told(alloc, tokens),
        "block" => block_told(alloc, tokens, false),
        "else" => block_told(alloc, tokens, true),
        "declaration" => declaration_told(alloc, tokens),
        "unit" => unit_told(alloc, tokens),
        _ => None,
    }
}

/// The same of the tokens of a text; or the number, the name and the place of a fault of the lexer.
pub fn text_told(alloc: Global, asked: &str, text: &[u8]) -> Option<String> {
    match lex(alloc, text) {
        Ok(tokens) => tokens_told(alloc, asked, &tokens),
        Err(fault) => {
            let at = fault.offset().unwrap_or(0);
            format!(in alloc; "{} {fault} {at}", fault.number()).ok()
        }
    }
}
