//! Hints at tokens that do not fit, by what stands in front.

ghost use Rattle.std.specs.Prelude.{◌≡◌};
ghost use Rattle.c_hints.specs.Syntax.{assignment_hint, begin_hint, brace_hint, bracket_hint, call_hint, capitals_hint, closing_hint, comma_hint, is_asked, is_pointer, kind_hint, list_hint, mark_hint, operator_hint, parenthesis_hint, token_hint, word_hint};

use crate::keywords::keyword_hint;
use c_hints_words::{
    Before, is_as, is_assignment, is_headed, is_keyword, is_operator, is_type, is_word, or_else,
};

/// A call in an expression, or in a place where no call stands.
fn call_hint() -> &'static str
    ensures { result.now ≡ call_hint }
{
    "a call stands in no expression: give it a line of its own, `r = f(x);`"
}

/// A mark that fits nowhere.
fn mark_hint(found: &str) -> &'static str
    ensures { result.now ≡ mark_hint found.now }
{
    if found == "++" || found == "--" {
        "a change stands in no expression: give it a line of its own, `i++;`"
    } else if found == ":" {
        "there are no labels"
    } else {
        ""
    }
}

/// A closing brace.
fn brace_hint(before: &Before<'_>) -> &'static str
    ensures { result.now ≡ brace_hint before.now }
{
    if before.braces == 0 {
        "no `{` is open"
    } else if before.last == "," {
        "no comma stands behind the last initial word"
    } else {
        ""
    }
}

/// A closing parenthesis, bracket or brace.
fn closing_hint(found: &str, before: &Before<'_>) -> &'static str
    ensures { result.now ≡ closing_hint found.now before.now }
{
    if found == ")" && (before.last == "(" && before.is_declared()) {
        "where there are no parameters, write `(void)`"
    } else if found == "]" && (before.last == "[" && before.is_declared()) {
        "write the number of cells, `int t[3] = {1, 2, 3};`"
    } else if found == "}" {
        brace_hint(before)
    } else {
        ""
    }
}

/// Whether this is the condition of an `if` or a `while`.
fn is_asked(before: &Before<'_>) -> bool
    ensures { result ≡ is_asked before.now }
{
    (before.caller == "if" || before.caller == "while") && before.parentheses > 0
}

/// An operator that assigns.
fn assignment_hint(found: &str, before: &Before<'_>) -> &'static str
    ensures { result.now ≡ assignment_hint found.now before.now }
{
    if found == "=" && is_asked(before) {
        "an assignment: to compare, write `==`"
    } else {
        "an assignment stands in no expression: give it a line of its own"
    }
}

/// Whether it is `*` behind a type, or `&` behind no word.
fn is_pointer(found: &str, before: &Before<'_>) -> bool
    ensures { result ≡ is_pointer found.now before.now }
{
    found == "*" && is_type(before.last) || found == "&" && !is_word(before.last)
}

/// Another operator.
fn operator_hint(found: &str, before: &Before<'_>) -> &'static str
    ensures { result.now ≡ operator_hint found.now before.now }
{
    if found == "==" && before.is_name_alone() {
        "this compares, and a comparison is no statement: to assign, write `=`"
    } else if is_pointer(found, before) {
        "there are no pointers"
    } else if before.is_behind_call() {
        call_hint()
    } else {
        ""
    }
}

/// A word where a statement or a declaration begins.
fn begin_hint(found: &str, before: &Before<'_>) -> &'static str
    ensures { result.now ≡ begin_hint found.now before.now }
{
    if found == "else" {
        "no `if` stands in front whose `else` this could be"
    } else if before.braces == 0 && !is_keyword(found) {
        "no type: types are `int` and `unsigned`"
    } else {
        ""
    }
}

/// A word.
fn word_hint(found: &str, before: &Before<'_>) -> &'static str
    ensures { result.now ≡ word_hint found.now before.now }
{
    if is_headed(before.last) {
        "parentheses are missing: `if (x < 3)`, `while (x < 3)`"
    } else if is_type(before.last) && is_keyword(found) {
        "a keyword is no name"
    } else if before.is_name_alone() && !is_keyword(before.last) {
        "what stands before it is no type: types are `int` and `unsigned`"
    } else if before.is_nothing_begun() {
        begin_hint(found, before)
    } else {
        ""
    }
}

/// A `(`.
fn parenthesis_hint(before: &Before<'_>) -> &'static str
    ensures { result.now ≡ parenthesis_hint before.now }
{
    if before.is_local() && is_type(before.second) {
        "no function stands in a function: declare it outside of all functions"
    } else if is_word(before.last) {
        call_hint()
    } else if before.is_nothing_begun() {
        "no statement begins with a parenthesis"
    } else {
        ""
    }
}

/// A `[`.
fn bracket_hint(before: &Before<'_>) -> &'static str
    ensures { result.now ≡ bracket_hint before.now }
{
    if before.last == "]" {
        "there are no arrays of arrays"
    } else if before.is_local() {
        "no array stands in a function: declare it outside of all functions"
    } else {
        ""
    }
}

/// A `,`.
fn comma_hint(before: &Before<'_>) -> &'static str
    ensures { result.now ≡ comma_hint before.now }
{
    if before.is_declared() && before.parentheses == 0 {
        "a declaration has one name: `int a; int b;`"
    } else {
        "there is no comma operator"
    }
}

/// One of these three.
fn list_hint(found: &str, before: &Before<'_>) -> &'static str
    ensures { result.now ≡ list_hint found.now before.now }
{
    if found == "(" {
        parenthesis_hint(before)
    } else if found == "[" {
        bracket_hint(before)
    } else if found == "," {
        comma_hint(before)
    } else {
        ""
    }
}

/// By the kind of the token.
fn kind_hint(found: &str, before: &Before<'_>) -> &'static str
    ensures { result.now ≡ kind_hint found.now before.now }
{
    if is_assignment(found) {
        assignment_hint(found, before)
    } else if is_operator(found) {
        operator_hint(found, before)
    } else if is_word(found) {
        word_hint(found, before)
    } else {
        list_hint(found, before)
    }
}

/// A word with capitals that is a keyword without.
fn capitals_hint(word: &str) -> &'static str
    ensures { result.now ≡ capitals_hint word.now }
{
    if is_as(word, "if") {
        "keywords have no capitals: write `if`"
    } else if is_as(word, "while") {
        "keywords have no capitals: write `while`"
    } else if is_as(word, "for") {
        "keywords have no capitals: write `for`"
    } else if is_as(word, "return") {
        "keywords have no capitals: write `return`"
    } else if is_as(word, "int") {
        "keywords have no capitals: write `int`"
    } else {
        ""
    }
}

/// What is said of a token that does not fit, if anything.
pub(crate) fn token_hint(found: &str, before: &Before<'_>) -> &'static str
    ensures { result.now ≡ token_hint found.now before.now }
{
    let form = or_else(closing_hint(found, before), kind_hint(found, before));
    let other = or_else(mark_hint(found), form);
    let here = or_else(capitals_hint(before.word_in_front()), other);
    or_else(keyword_hint(found), here)
}
