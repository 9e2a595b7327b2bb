//! Hints at names: what is meant by one that is not declared, where one stands already, how many arguments there are.

ghost use Rattle.std.specs.Prelude.{◌≡◌, IfOk, string_bytes};
ghost use Rattle.c_hints.specs.Hints.{IsHintOf};
ghost use Rattle.c_hints.specs.Names.{behind_text, count_text, kind_of, library_hint, library_text, near_text, second_text, undeclared_text};

use c_hints_words::{declared_before, declared_behind, near_name, parts_behind, token_at};
use c_places::place_of;
use std::alloc::{AllocError, Global};

/// What is said of a name of C's libraries.
fn library_hint(name: &str) -> &'static str
    ensures { result.now ≡ library_hint name.now }
{
    if name == "putchar" {
        "write its prototype in front of the functions: `int putchar(int);`"
    } else if name == "printf" || name == "puts" {
        "the only library function is `putchar`: print each character by it"
    } else if name == "getchar" || name == "scanf" {
        "there is no input"
    } else if name == "malloc" {
        "there is no memory to be asked for: declare a global array"
    } else if name == "true" {
        "write `1`"
    } else if name == "false" {
        "write `0`"
    } else {
        ""
    }
}

fn undeclared_text(alloc: Global, found: &str) -> Result<String, AllocError>
    ensures { IfOk result (λ hint. string_bytes hint ≡ undeclared_text found.now) }
{
    format!(in alloc; "`{found}` is not declared")
}

fn library_text(alloc: Global, found: &str, words: &str) -> Result<String, AllocError>
    ensures { IfOk result (λ hint. string_bytes hint ≡ library_text found.now words.now) }
{
    if words.is_empty() {
        return undeclared_text(alloc, found);
    }
    format!(in alloc; "`{found}` is not declared: {words}")
}

fn near_text(alloc: Global, found: &str, near: &str) -> Result<String, AllocError>
    ensures { IfOk result (λ hint. string_bytes hint ≡ near_text found.now near.now) }
{
    format!(in alloc; "`{found}` is not declared: is `{near}` meant?")
}

fn behind_text(alloc: Global, found: &str, line: usize) -> Result<String, AllocError>
    ensures { IfOk result (λ hint. string_bytes hint ≡ behind_text found.now line) }
{
    format!(in alloc; "`{found}` is declared in line {line}: declare it in front of here")
}

fn second_text(alloc: Global, found: &str, line: usize) -> Result<String, AllocError>
    ensures { IfOk result (λ hint. string_bytes hint ≡ second_text found.now line) }
{
    format!(in alloc; "`{found}` is declared in line {line} already")
}

fn kind_of(wanted: usize, given: usize) -> &'static str
    ensures { result.now ≡ kind_of wanted given }
{
    if given < wanted { "few" } else { "many" }
}

fn count_text(alloc: Global, found: &str, wanted: usize, given: usize) -> Result<String, AllocError>
    ensures { IfOk result (λ hint. string_bytes hint ≡ count_text found.now wanted given) }
{
    let kind = kind_of(wanted, given);
    format!(in alloc; "too {kind} arguments to `{found}`: {wanted} expected, {given} given")
}

/// What is said of a name that is none of C's libraries', is not declared in front, and is much like none that is.
#[tactic(auto, using(crate::proofs::Rows::behind_said, crate::proofs::Rows::undeclared_said))]
fn said_of_own(alloc: Global, text: &[u8], at: usize, found: &str) -> Result<String, AllocError>
    ensures { IfOk result (λ hint. IsHintOf text.now 220 found.now (string_bytes hint)) }
{
    match declared_behind(text, at, found) {
        Some(behind) => behind_text(alloc, found, place_of(text, behind).line),
        None => undeclared_text(alloc, found),
    }
}

/// What is said of a name that is not declared in front.
#[tactic(auto, using(crate::proofs::Rows::library_said, crate::proofs::Rows::near_said))]
fn said_of_undeclared(
    alloc: Global,
    text: &[u8],
    at: usize,
    found: &str,
) -> Result<String, AllocError>
    ensures { IfOk result (λ hint. IsHintOf text.now 220 found.now (string_bytes hint)) }
{
    let words = library_hint(found);
    if !words.is_empty() {
        return library_text(alloc, found, words);
    }
    match near_name(text, at, found) {
        Some(near) => near_text(alloc, found, token_at(text, near)),
        None => said_of_own(alloc, text, at, found),
    }
}

/// What is said of a name that is not declared as what it is used as.
#[tactic(auto, using(crate::proofs::Rows::unsaid))]
pub(crate) fn said_of_name(
    alloc: Global,
    text: &[u8],
    at: usize,
    found: &str,
) -> Result<String, AllocError>
    ensures { IfOk result (λ hint. IsHintOf text.now 220 found.now (string_bytes hint)) }
{
    match declared_before(text, at, found) {
        Some(_) => Ok(String::new(alloc)),
        None => said_of_undeclared(alloc, text, at, found),
    }
}

/// What is said of a name that is declared already.
#[tactic(auto, using(crate::proofs::Rows::second_said, crate::proofs::Rows::unsaid))]
pub(crate) fn said_of_second(
    alloc: Global,
    text: &[u8],
    at: usize,
    found: &str,
) -> Result<String, AllocError>
    ensures { IfOk result (λ hint. IsHintOf text.now 221 found.now (string_bytes hint)) }
{
    match declared_before(text, at, found) {
        Some(first) => second_text(alloc, found, place_of(text, first).line),
        None => Ok(String::new(alloc)),
    }
}

/// What is said of a call with another number of arguments.
#[tactic(auto, using(crate::proofs::Rows::count_said, crate::proofs::Rows::unsaid))]
pub(crate) fn said_of_count(
    alloc: Global,
    text: &[u8],
    at: usize,
    found: &str,
) -> Result<String, AllocError>
    ensures { IfOk result (λ hint. IsHintOf text.now 222 found.now (string_bytes hint)) }
{
    let Some(declared) = declared_before(text, at, found) else {
        return Ok(String::new(alloc));
    };
    match (parts_behind(text, declared), parts_behind(text, at)) {
        (Some(wanted), Some(given)) => count_text(alloc, found, wanted, given),
        _ => Ok(String::new(alloc)),
    }
}
