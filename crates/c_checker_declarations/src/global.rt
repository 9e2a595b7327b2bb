//! Global variables and arrays (C99 6.9.2).

ghost use Rattle.std.specs.Prelude.{◌≡◌, ◌≤◌, ◌+◌, [], IsTrue, OnOk, IfOk, IfErr};
ghost use Rattle.c_syntax.specs.Views.{optional_tree, initializer_tree, global_tree};
ghost use Rattle.c_checker_rules.specs.Told.{Tells};
ghost use Rattle.c_checker_rules.specs.Globals as G;
ghost use Rattle.c_checker_declarations.specs.Sources.{variable_for};

use crate::initial::check_initializer;
use c_checker_rules::{CheckError, Meaning};
use c_checker_scopes::Scopes;
use c_checker_terms::{is_main, is_new, is_putchar, is_short};
use c_program::GlobalVariable;
use c_syntax::{Constant, Global as GlobalTree, Identifier, Initializer};
use lang_base::Row;
use std::alloc::Global;

/// How deep the scope of a file is.
const FILE_SCOPE: u32 = 0;

/// The most globals.
const MOST_GLOBALS: usize = 1024;

/// The most cells of an array, and of all globals.
const MOST_CELLS: usize = 65536;

/// How many cells a global has: one where it has no size.
fn size_of(size: &Option<Constant>) -> usize
    ensures value { result ≡ G.size_of size.now }
    ensures range { result ≤ 4294967295 }
{
    match size {
        None => 1,
        Some(constant) => constant.value as usize,
    }
}

/// Whether the initializer suits the size.
fn suits(size: &Option<Constant>, initializer: &Option<Initializer>) -> bool
    ensures { result ≡ G.suits size.now (optional_tree initializer_tree initializer.now) }
{
    match (size, initializer) {
        (_size, None) => true,
        (None, Some(Initializer::Plain(_initial))) => true,
        (Some(_size), Some(Initializer::Plain(_initial))) => false,
        (None, Some(Initializer::Braced(_initials))) => false,
        (Some(constant), Some(Initializer::Braced(initials))) => {
            initials.len() <= constant.value as usize
        }
    }
}

/// Whether no limit is passed, with so many globals before, of so many cells.
fn is_within(globals: usize, cells: usize, global: &GlobalTree) -> bool
    requires { cells ≤ 65536 }
    ensures value { result ≡ G.is_within globals cells (global_tree global.now) }
    ensures small { IsTrue result → cells + G.size_of global.now.size ≤ 65536 }
{
    let size = size_of(&global.size);
    globals < MOST_GLOBALS
        && (1 <= size && size <= MOST_CELLS)
        && cells + size <= MOST_CELLS
        && is_short(&global.name)
}

/// Whether a global of this name, size and kind of initializer may be declared here.
fn check_name(
    scope: &Scopes<Meaning>,
    globals: usize,
    cells: usize,
    global: &GlobalTree,
) -> Result<(), CheckError>
    requires { cells ≤ 65536 }
    ensures small { OnOk result (cells + G.size_of global.now.size ≤ 65536) }
    ensures ok { OnOk result (G.global_name_faults scope.now globals cells (global_tree global.now) ≡ []) }
    ensures err { IfErr result (λ e. Tells e (G.global_name_faults scope.now globals cells (global_tree global.now))) }
{
    let at = global.name.offset;
    if !is_new(FILE_SCOPE, scope, &global.name) || is_putchar(&global.name) {
        return Err(CheckError::Redeclared(at));
    }
    if is_main(&global.name) {
        return Err(CheckError::BadMain(at));
    }
    if !is_within(globals, cells, global) {
        return Err(CheckError::Limit(at));
    }
    if !suits(&global.size, &global.initializer) {
        return Err(CheckError::ArrayUse(at));
    }
    Ok(())
}

/// What a global's name stands for.
fn meaning(number: usize, global: &GlobalTree) -> Meaning
    ensures { result ≡ G.global_meaning number (global_tree global.now) }
{
    match &global.size {
        None => Meaning::Variable(number, global.kind),
        Some(_size) => Meaning::Array(number, global.kind),
    }
}

/// The global variable that a declaration stands for, with so many globals before, of so many cells; or the
/// first fault in it. Its name is declared here, before its initializer (C99 6.2.1).
#[tactic(auto, using(c_checker_rules::proofs::Firsts::tells_front, c_checker_rules::proofs::Firsts::tells_behind))]
pub fn check_global(
    alloc: Global,
    scope: &mut Scopes<Meaning>,
    globals: usize,
    cells: usize,
    global: &GlobalTree,
) -> Result<GlobalVariable, CheckError>
    requires { cells ≤ 65536 }
    ensures ok { OnOk result (G.global_faults scope.old globals cells (global_tree global.now) ≡ []) }
    ensures cells { OnOk result (cells + G.size_of global.now.size ≤ 65536) }
    ensures variable { IfOk result (λ v. v ≡ variable_for globals scope.old global.now) }
    ensures scope { OnOk result (scope.new ≡ G.with_global globals scope.old (global_tree global.now)) }
    ensures err { IfErr result (λ e. Tells e (G.global_faults scope.old globals cells (global_tree global.now))) }
{
    check_name(scope, globals, cells, global)?;
    scope.bind(
        global.name.name.as_slice(),
        FILE_SCOPE,
        meaning(globals, global),
    )?;
    let words = check_initializer(alloc, scope, &global.initializer)?;
    Ok(GlobalVariable {
        cells: size_of(&global.size),
        first_words: Row::from_vec(words),
    })
}
