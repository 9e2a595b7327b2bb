//! What is missing in front of a token that does not fit.

ghost use Rattle.std.specs.Prelude.{◌≡◌};
ghost use Rattle.c_hints.specs.Missing.{begins_statement, can_end, ends_value, is_behind, is_change, is_closed, is_next, is_outside, is_valued, lacks_bracket, lacks_parenthesis, lacks_semicolon, missing_at_end, missing_behind, missing_mark};

use c_hints_words::{Before, byte_of, is_keyword, is_word, wants_value};

fn is_change(token: &str) -> bool
    ensures { result ≡ is_change token.now }
{
    token == "++" || token == "--"
}

fn is_closed(token: &str) -> bool
    ensures { result ≡ is_closed token.now }
{
    token == ")" || (token == "]" || byte_of(token, 0) == b'\'')
}

fn is_valued(token: &str) -> bool
    ensures { result ≡ is_valued token.now }
{
    is_word(token) && !(token == "else" || token == "do")
}

/// Whether a statement can end behind the token.
fn can_end(token: &str) -> bool
    ensures { result ≡ can_end token.now }
{
    is_valued(token) || (is_closed(token) || is_change(token))
}

/// Whether the token begins a statement, whatever stands in front.
fn begins_statement(found: &str) -> bool
    ensures { result ≡ begins_statement found.now }
{
    is_keyword(found) && found != "else"
}

/// Whether the token ends the block, stands on a new line, or begins a statement.
fn is_next(found: &str, on_new_line: bool, before: &Before<'_>) -> bool
    ensures { result ≡ is_next found.now on_new_line before.now }
{
    found == "}"
        || (on_new_line && is_word(found) || begins_statement(found) && !is_keyword(before.last))
}

fn lacks_semicolon(found: &str, on_new_line: bool, before: &Before<'_>) -> bool
    ensures { result ≡ lacks_semicolon found.now on_new_line before.now }
{
    can_end(before.last) && (before.parentheses == 0 && is_next(found, on_new_line, before))
}

/// Whether the token stands in no parentheses, but in those of a `for`.
fn is_behind(found: &str, before: &Before<'_>) -> bool
    ensures { result ≡ is_behind found.now before.now }
{
    found == "{" || found == ";" && before.caller != "for"
}

fn lacks_parenthesis(found: &str, before: &Before<'_>) -> bool
    ensures { result ≡ lacks_parenthesis found.now before.now }
{
    before.parentheses > 0 && (can_end(before.last) && is_behind(found, before))
}

/// Whether the token stands in no brackets.
fn is_outside(found: &str, before: &Before<'_>) -> bool
    ensures { result ≡ is_outside found.now before.now }
{
    found == ";" || (found == "=" || found == ")" && before.parentheses > 0)
}

fn lacks_bracket(found: &str, before: &Before<'_>) -> bool
    ensures { result ≡ lacks_bracket found.now before.now }
{
    before.brackets > 0 && (can_end(before.last) && is_outside(found, before))
}

/// The mark that seems to be missing in front of what was found, if one is.
pub(crate) fn missing_mark(found: &str, on_new_line: bool, before: &Before<'_>) -> &'static str
    ensures { result.now ≡ missing_mark found.now on_new_line before.now }
{
    if lacks_bracket(found, before) {
        "]"
    } else if lacks_parenthesis(found, before) {
        ")"
    } else if lacks_semicolon(found, on_new_line, before) {
        ";"
    } else {
        ""
    }
}

fn ends_value(found: &str) -> bool
    ensures { result ≡ ends_value found.now }
{
    found == ";" || (found == ")" || found == "]")
}

/// The operator behind which a value is missing, if one is.
pub(crate) fn missing_behind<'a>(found: &str, before: &Before<'a>) -> &'a str
    ensures { result.now ≡ missing_behind found.now before.now }
{
    if ends_value(found) && (wants_value(before.last) && !is_change(before.last)) {
        before.last
    } else {
        ""
    }
}

/// The mark that seems to be missing at the end of the text.
pub(crate) fn missing_at_end(before: &Before<'_>) -> &'static str
    ensures { result.now ≡ missing_at_end before.now }
{
    if before.braces > 0 { "}" } else { ";" }
}
