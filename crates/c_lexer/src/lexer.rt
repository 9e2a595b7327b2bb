//! The whole text.

ghost use Rattle.std.specs.Prelude.{◌≡◌, ◌≢◌, IfOk, IfErr, IsErrAnd, List};
ghost use Rattle.c_syntax.specs.declared.token.Token.{Token};
ghost use Rattle.c_lexer.specs.declared.errors.LexError.{LexError};
ghost use Rattle.c_lexer.specs.Answers.{GivesTokens};
ghost use Rattle.c_lexer.specs.Texts.{HasFault, HasTokens};

use crate::errors::LexError;
use crate::parts::first_part;
use c_syntax::Token;
use std::alloc::Global;

/// Reads part after part, up to the end or the first fault.
fn read(alloc: Global, text: &[u8]) -> Result<Vec<Token>, LexError>
    ensures ok { IfOk result (λ tokens. HasTokens text.now tokens.items) }
    ensures err { IfErr result (λ e. e ≢ LexError.NoMemory → HasFault text.now e) }
{
    let mut tokens = Vec::new(alloc);
    let mut at = 0;
    while at < text.len() {
        let found = first_part(alloc, at, &text[at..])?;
        let end = at + found.len;
        if let Some(kind) = found.kind {
            tokens.push(Token {
                kind,
                start: at,
                end,
            })?;
        }
        at = end;
    }
    Ok(tokens)
}

/// The tokens of a text, in order; or why it has none: memory, or its first fault (C99 6.4). What the
/// tokens of a text are is `HasTokens` of `specs/Texts.antt`. A token takes 48 bytes of memory.
pub fn lex(alloc: Global, text: &[u8]) -> Result<Vec<Token>, LexError>
    // The text has these tokens.
    ensures ok { IfOk result (λ tokens. HasTokens text.now tokens.items) }
    // The text has this fault, unless memory ran out.
    ensures err { IfErr result (λ e. e ≢ LexError.NoMemory → HasFault text.now e) }
    // A text that has tokens is given these, unless memory runs out.
    ensures only { (tokens : List Token) → HasTokens text.now tokens → GivesTokens tokens result }
    // A text that has a fault is refused with it, unless memory runs out.
    ensures first { (e : LexError) → HasFault text.now e → IsErrAnd result (λ f. f ≢ LexError.NoMemory → f ≡ e) }
{
    read(alloc, text)
}
