//! Functions with bodies, and prototypes (C99 6.7.5.3 and 6.9.1).

ghost use Rattle.std.specs.Prelude.{◌≡◌, ◌≤◌, ◌+◌, [], length, OnOk, IfOk, IfErr};
ghost use Rattle.c_syntax.specs.Heights.{statements_height};
ghost use Rattle.c_syntax.specs.Views.{statements_tree, function_tree};
ghost use Rattle.c_program.specs.Views as V;
ghost use Rattle.c_checker_rules.specs.Told.{Tells};
ghost use Rattle.c_checker_rules.specs.Functions as F;
ghost use Rattle.c_checker_declarations.specs.Parameters.{from_none};
ghost use Rattle.c_checker_declarations.specs.Sources.{body_actions, behind_body, function_for};

use crate::parameters::{check_open_parameters, check_parameters};
use c_checker_bodies::{Here, check_statements, leave};
use c_checker_rules::{CheckError, Context};
use c_checker_terms::{Functions, is_main};
use c_program::{Action, Ending, Function};
use c_syntax::{Identifier, Prototype, ReturnType};
use lang_base::{NoMemory, Row};
use std::alloc::Global;

/// What the end of a body means in a function with this name.
#[tactic(auto, using(crate::proofs::Endings::of_main, crate::proofs::Endings::of_another))]
fn ending_of(name: &Identifier, gives: ReturnType) -> Ending
    ensures { result ≡ F.ending_of name.now.name gives }
{
    if is_main(name) {
        return Ending::ReturnsZero;
    }
    match gives {
        ReturnType::Void => Ending::Returns,
        ReturnType::Value(_kind) => Ending::GoesWrong,
    }
}

/// The parameters and the body of a function, which begins with no locals. Its names stay declared.
#[tactic(auto, using(c_checker_rules::proofs::Firsts::tells_front, c_checker_rules::proofs::Firsts::tells_behind))]
fn check_body(
    alloc: Global,
    functions: &Functions,
    here: &mut Here,
    function: &c_syntax::Function,
) -> Result<Vec<Action>, CheckError>
    requires { 1 + statements_height (statements_tree function.now.body) ≤ 200 }
    ensures ok { OnOk result (F.body_faults functions.now here.old.scope (function_tree function.now) ≡ []) }
    ensures actions { IfOk result (λ a. V.actions_tree a.items ≡ body_actions functions.now here.old.scope function.now) }
    ensures here { OnOk result (here.new ≡ behind_body here.old.scope function.now) }
    ensures err { IfErr result (λ e. Tells e (F.body_faults functions.now here.old.scope (function_tree function.now))) }
{
    here.locals = 0;
    check_parameters(here, function.parameters.as_slice())?;
    let context = Context {
        depth: 1,
        in_loop: false,
        result: function.result,
    };
    check_statements(alloc, functions, context, here, function.body.as_slice())
}

/// The function under a text's function's name, with so many locals and this body.
pub fn function_with(
    alloc: Global,
    function: &c_syntax::Function,
    locals: usize,
    body: Vec<Action>,
) -> Result<Function, NoMemory>
    ensures name { IfOk result (λ g. g.name ≡ function.now.name.name) }
    ensures parameters { IfOk result (λ g. g.parameters ≡ length function.now.parameters) }
    ensures locals { IfOk result (λ g. g.locals ≡ locals) }
    ensures ending { IfOk result (λ g. g.ending ≡ F.ending_of function.now.name.name function.now.result) }
    ensures body { IfOk result (λ g. g.body ≡ body.items) }
{
    Ok(Function {
        name: function.name.name.copied(alloc)?,
        parameters: function.parameters.len(),
        locals,
        ending: ending_of(&function.name, function.result),
        body: Row::from_vec(body),
    })
}

/// The function that a text's function stands for, or the first fault in its parameters and body. Where it is
/// well formed, the names are those from before. The function itself is declared before.
#[tactic(auto, using(crate::proofs::Entering::function_longer, crate::proofs::Entering::function_shortened))]
pub fn check_function(
    alloc: Global,
    functions: &Functions,
    here: &mut Here,
    function: &c_syntax::Function,
) -> Result<Function, CheckError>
    requires { 1 + statements_height (statements_tree function.now.body) ≤ 200 }
    ensures ok { OnOk result (F.body_faults functions.now here.old.scope (function_tree function.now) ≡ []) }
    ensures function { IfOk result (λ g. V.function_tree g ≡ function_for functions.now here.old.scope function.now) }
    ensures scope { OnOk result (here.new.scope ≡ here.old.scope) }
    ensures err { IfErr result (λ e. Tells e (F.body_faults functions.now here.old.scope (function_tree function.now))) }
{
    let mark = here.scope.len();
    let body = check_body(alloc, functions, here, function)?;
    leave(here, mark);
    Ok(function_with(alloc, function, here.locals, body)?)
}

/// Whether a prototype's parameters are well formed; the first fault in them. Where they are, the names are
/// those from before.
#[tactic(auto, using(crate::proofs::Entering::prototype_longer, crate::proofs::Entering::prototype_shortened))]
pub fn check_prototype(here: &mut Here, prototype: &Prototype) -> Result<(), CheckError>
    ensures ok { OnOk result (F.parameters_faults (from_none here.old.scope) prototype.now.parameters ≡ []) }
    ensures scope { OnOk result (here.new.scope ≡ here.old.scope) }
    ensures err { IfErr result (λ e. Tells e (F.parameters_faults (from_none here.old.scope) prototype.now.parameters)) }
{
    let mark = here.scope.len();
    here.locals = 0;
    check_open_parameters(here, prototype.parameters.as_slice())?;
    leave(here, mark);
    Ok(())
}
