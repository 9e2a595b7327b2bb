//! The hint of a fault of a text.

ghost use Rattle.std.specs.Prelude.{◌≡◌, IfOk, string_bytes};
ghost use Rattle.c_hints.specs.Hints.{IsHint, IsHintOf, byte_order_text, character_text, end_text, has_byte_order, missing_text, quoted, syntax_text, unfit_text, value_text};
ghost use Rattle.c_hints_words.specs.Standing.{IsDeclaredAt};

use crate::missing::{missing_at_end, missing_behind, missing_mark};
use crate::names::{said_of_count, said_of_name, said_of_second};
use crate::numbers::{byte_hint, limit_hint, number_hint};
use crate::syntax::token_hint;
use c_hints_words::{
    Before, bytes_between, declared_before, token_at, token_from, tokens_before, word_between,
};
use c_lexer_lexemes::byte_at;
use c_places::{Place, place_of};
use std::alloc::{AllocError, Global};

/// How many bytes of a statement are shown.
const MOST: usize = 30;

/// The statement as it is shown: without a `return` in front, or its last token alone where it is long or goes over lines.
fn statement_of<'a>(text: &'a [u8], before: &Before<'a>) -> &'a str {
    let statement = word_between(text, before.start, before.end);
    let statement = statement.strip_prefix("return ").unwrap_or(statement);
    if statement.is_empty() || statement.len() > MOST || statement.contains("\n") {
        before.last
    } else {
        statement
    }
}

/// What was found, in quotes, and what is said of it; nothing where that is nothing.
fn quoted(alloc: Global, found: &str, words: &str) -> Result<String, AllocError>
    ensures { IfOk result (λ hint. string_bytes hint ≡ quoted found.now words.now) }
{
    if words.is_empty() {
        return Ok(String::new(alloc));
    }
    format!(in alloc; "`{found}`: {words}")
}

fn missing_text(
    alloc: Global,
    found: &str,
    statement: &str,
    mark: &str,
) -> Result<String, AllocError>
    ensures { IfOk result (λ hint. string_bytes hint ≡ missing_text found.now statement.now mark.now) }
{
    format!(in alloc; "`{found}` after `{statement}`: is `{mark}` missing?")
}

fn end_text(alloc: Global, mark: &str) -> Result<String, AllocError>
    ensures { IfOk result (λ hint. string_bytes hint ≡ end_text mark.now) }
{
    format!(in alloc; "the text ends: is `{mark}` missing?")
}

fn value_text(alloc: Global, found: &str, last: &str) -> Result<String, AllocError>
    ensures { IfOk result (λ hint. string_bytes hint ≡ value_text found.now last.now) }
{
    format!(in alloc; "`{found}`: a value is missing behind `{last}`")
}

/// What is said of a token that does not fit and lacks no mark in front.
fn unfit_text(alloc: Global, found: &str, before: &Before<'_>) -> Result<String, AllocError>
    ensures { IfOk result (λ hint. string_bytes hint ≡ unfit_text found.now before.now) }
{
    let last = missing_behind(found, before);
    if last.is_empty() {
        quoted(alloc, found, token_hint(found, before))
    } else {
        value_text(alloc, found, last)
    }
}

/// What is said of a token that does not fit, or of the end of the text.
fn syntax_text(
    alloc: Global,
    found: &str,
    statement: &str,
    on_new_line: bool,
    before: &Before<'_>,
) -> Result<String, AllocError>
    ensures { IfOk result (λ hint. string_bytes hint ≡ syntax_text found.now statement.now on_new_line before.now) }
{
    let mark = missing_mark(found, on_new_line, before);
    if !mark.is_empty() {
        missing_text(alloc, found, statement, mark)
    } else if found.is_empty() {
        end_text(alloc, missing_at_end(before))
    } else {
        unfit_text(alloc, found, before)
    }
}

#[tactic(auto, using(crate::proofs::Rows::token_said))]
fn said_of_token(alloc: Global, text: &[u8], at: usize, found: &str) -> Result<String, AllocError>
    ensures { IfOk result (λ hint. IsHintOf text.now 210 found.now (string_bytes hint)) }
{
    let before = tokens_before(text, at);
    let on_new_line = bytes_between(text, before.end, at).contains(&b'\n');
    let statement = statement_of(text, &before);
    syntax_text(alloc, found, statement, on_new_line, &before)
}

/// Whether the text begins with the mark of the byte order of UTF-8.
fn has_byte_order(text: &[u8]) -> bool
    ensures { result ≡ has_byte_order text.now }
{
    byte_at(text, 0) == 0xEF && (byte_at(text, 1) == 0xBB && byte_at(text, 2) == 0xBF)
}

fn byte_order_text(alloc: Global) -> Result<String, AllocError>
    ensures { IfOk result (λ hint. string_bytes hint ≡ byte_order_text) }
{
    format!(in alloc; "a byte order mark stands in front: save the text without it")
}

/// What is said of a byte that begins no token. The mark of the byte order is the first such byte.
#[tactic(auto, using(crate::proofs::Rows::byte_order_said, crate::proofs::Rows::byte_said))]
fn said_of_byte(alloc: Global, text: &[u8], at: usize, found: &str) -> Result<String, AllocError>
    ensures { IfOk result (λ hint. IsHintOf text.now 201 found.now (string_bytes hint)) }
{
    if has_byte_order(text) {
        return byte_order_text(alloc);
    }
    let behind = token_from(text, at.saturating_add(1));
    quoted(alloc, found, byte_hint(found, behind.word))
}

/// What is said of a number that fits no type, or has more behind it.
#[tactic(auto, using(crate::proofs::Rows::number_said))]
fn said_of_number(alloc: Global, text: &[u8], found: &str) -> Result<String, AllocError>
    ensures { IfOk result (λ hint. IsHintOf text.now 203 found.now (string_bytes hint)) }
{
    quoted(alloc, found, number_hint(found))
}

fn character_text(alloc: Global) -> Result<String, AllocError>
    ensures { IfOk result (λ hint. string_bytes hint ≡ character_text) }
{
    format!(in alloc;
        "a character constant is one character in quotes, or `\\n`, `\\t`, `\\0`, `\\\\`, `\\'`, `\\\"`"
    )
}

/// What is said of what begins no character constant.
#[tactic(auto, using(crate::proofs::Rows::character_said))]
fn said_of_character(alloc: Global, text: &[u8], found: &str) -> Result<String, AllocError>
    ensures { IfOk result (λ hint. IsHintOf text.now 204 found.now (string_bytes hint)) }
{
    character_text(alloc)
}

/// What is said of the name of a declaration that passes a limit.
#[tactic(auto, using(crate::proofs::Rows::limit_said))]
fn said_of_limit(alloc: Global, text: &[u8], at: usize, found: &str) -> Result<String, AllocError>
    ensures { IfOk result (λ hint. IsHintOf text.now 228 found.now (string_bytes hint)) }
{
    let behind = token_from(text, at.saturating_add(found.len()));
    let before = tokens_before(text, at);
    quoted(alloc, found, limit_hint(found, behind.word, &before))
}

/// What is said of a fault of this number at this offset, beside its sentence; nothing where nothing is. The time is linear in the text.
#[tactic(auto, using(crate::proofs::Rows::hinted, crate::proofs::Rows::unhinted))]
pub fn hint_at(alloc: Global, text: &[u8], number: u16, at: usize) -> Result<String, AllocError>
    ensures { IfOk result (λ hint. IsHint text.now at number (string_bytes hint)) }
{
    let found = token_at(text, at);
    match number {
        201 => said_of_byte(alloc, text, at, found),
        203 => said_of_number(alloc, text, found),
        204 => said_of_character(alloc, text, found),
        210 => said_of_token(alloc, text, at, found),
        220 => said_of_name(alloc, text, at, found),
        221 => said_of_second(alloc, text, at, found),
        222 => said_of_count(alloc, text, at, found),
        228 => said_of_limit(alloc, text, at, found),
        _ => Ok(String::new(alloc)),
    }
}

/// Where the name that stands at an offset is declared in front, if it is.
#[tactic(auto, using(crate::proofs::Rows::declared_there))]
pub fn declared_at(text: &[u8], at: usize) -> Option<Place>
    ensures { IsDeclaredAt text.now at result }
{
    let name = token_at(text, at);
    if name.is_empty() {
        return None;
    }
    match declared_before(text, at, name) {
        Some(first) => Some(place_of(text, first)),
        None => None,
    }
}
