//! Declarations at the outside of a text (C99 6.9).

ghost use Rattle.std.specs.Prelude.{◌≡◌, ◌≤◌, [], OnOk, IfErr};
ghost use Rattle.c_syntax.specs.Heights.{IsLow};
ghost use Rattle.c_syntax.specs.Trees as T;
ghost use Rattle.c_syntax.specs.Views.{declaration_tree, function_tree, global_tree};
ghost use Rattle.c_checker_rules.specs.Told.{Tells};
ghost use Rattle.c_checker.specs.Reached.{file_of, faults_at, file_behind, GlobalsGrow, FunctionsGrow, naming_faults, scope_with, functions_with};

use crate::progress::Progress;
use c_checker_declarations::{
    check_function, check_global, check_name, check_prototype, declare_function,
    prototype_signature, signature_of,
};
use c_checker_rules::{CheckError, Signature};
use c_program::Function;
use c_syntax::{Declaration, Global as GlobalTree, Identifier, Prototype};
use std::alloc::Global;

/// A global.
pub fn take_global<F: Drop>(
    alloc: Global,
    progress: &mut Progress<F>,
    global: &GlobalTree,
) -> Result<(), CheckError>
    requires { progress.old.cells ≤ 65536 }
    ensures ok { OnOk result (faults_at progress.old (T.Global (global_tree global.now)) ≡ []) }
    ensures file { OnOk result (file_of progress.new ≡ file_behind progress.old (T.Global (global_tree global.now))) }
    ensures bodies { OnOk result (progress.new.functions.bodies ≡ progress.old.functions.bodies) }
    ensures globals { OnOk result (GlobalsGrow progress.old progress.new (T.Global (global_tree global.now))) }
    ensures defined { OnOk result (progress.new.defined ≡ progress.old.defined) }
    ensures cells { OnOk result (progress.new.cells ≤ 65536) }
    ensures err { IfErr result (λ e. Tells e (faults_at progress.old (T.Global (global_tree global.now)))) }
{
    let number = progress.globals.len();
    let cells = progress.cells;
    let variable = check_global(alloc, &mut progress.here.scope, number, cells, global)?;
    progress.cells = cells + variable.cells;
    progress.globals.push(variable)?;
    Ok(())
}

/// The name of a function with this number, or of a prototype.
pub fn declare<F: Drop>(
    progress: &mut Progress<F>,
    name: &Identifier,
    signature: Signature,
    number: Option<usize>,
) -> Result<(), CheckError>
    ensures ok { OnOk result (naming_faults progress.old name.now signature number ≡ []) }
    ensures scope { OnOk result (progress.new.here.scope ≡ scope_with progress.old name.now) }
    ensures functions { OnOk result (progress.new.functions ≡ functions_with progress.old name.now signature) }
    ensures globals { OnOk result (progress.new.globals ≡ progress.old.globals) }
    ensures defined { OnOk result (progress.new.defined ≡ progress.old.defined) }
    ensures cells { OnOk result (progress.new.cells ≡ progress.old.cells) }
    ensures err { IfErr result (λ e. Tells e (naming_faults progress.old name.now signature number)) }
{
    check_name(
        &progress.functions,
        &progress.here.scope,
        name,
        &signature,
        number,
    )?;
    declare_function(
        &mut progress.functions,
        &mut progress.here.scope,
        name,
        signature,
    )?;
    Ok(())
}

/// A function with its body.
#[tactic(auto, using(c_checker_rules::proofs::Firsts::tells_front, c_checker_rules::proofs::Firsts::tells_behind))]
fn take_function(
    alloc: Global,
    progress: &mut Progress<Function>,
    function: &c_syntax::Function,
) -> Result<(), CheckError>
    requires low { IsLow (T.Function (function_tree function.now)) }
    requires cells { progress.old.cells ≤ 65536 }
    ensures ok { OnOk result (faults_at progress.old (T.Function (function_tree function.now)) ≡ []) }
    ensures file { OnOk result (file_of progress.new ≡ file_behind progress.old (T.Function (function_tree function.now))) }
    ensures bodies { OnOk result (progress.new.functions.bodies ≡ progress.old.functions.bodies) }
    ensures globals { OnOk result (GlobalsGrow progress.old progress.new (T.Function (function_tree function.now))) }
    ensures functions { OnOk result (FunctionsGrow progress.old progress.new (T.Function (function_tree function.now))) }
    ensures cells { OnOk result (progress.new.cells ≤ 65536) }
    ensures err { IfErr result (λ e. Tells e (faults_at progress.old (T.Function (function_tree function.now)))) }
{
    let number = progress.defined.len();
    let parameters = function.parameters.as_slice();
    let signature = signature_of(alloc, function.result, parameters)?;
    declare(progress, &function.name, signature, Some(number))?;
    let made = check_function(alloc, &progress.functions, &mut progress.here, function)?;
    progress.defined.push(made)?;
    Ok(())
}

/// A prototype.
#[tactic(auto, using(c_checker_rules::proofs::Firsts::tells_front, c_checker_rules::proofs::Firsts::tells_behind))]
pub fn take_prototype<F: Drop>(
    alloc: Global,
    progress: &mut Progress<F>,
    prototype: &Prototype,
) -> Result<(), CheckError>
    requires { progress.old.cells ≤ 65536 }
    ensures ok { OnOk result (faults_at progress.old (T.Prototype' prototype.now) ≡ []) }
    ensures file { OnOk result (file_of progress.new ≡ file_behind progress.old (T.Prototype' prototype.now)) }
    ensures bodies { OnOk result (progress.new.functions.bodies ≡ progress.old.functions.bodies) }
    ensures globals { OnOk result (progress.new.globals ≡ progress.old.globals) }
    ensures defined { OnOk result (progress.new.defined ≡ progress.old.defined) }
    ensures cells { OnOk result (progress.new.cells ≤ 65536) }
    ensures err { IfErr result (λ e. Tells e (faults_at progress.old (T.Prototype' prototype.now))) }
{
    let parameters = prototype.parameters.as_slice();
    let signature = prototype_signature(alloc, prototype.result, parameters)?;
    declare(progress, &prototype.name, signature, None)?;
    check_prototype(&mut progress.here, prototype)?;
    Ok(())
}

/// The next declaration.
pub(crate) fn take(
    alloc: Global,
    progress: &mut Progress<Function>,
    declaration: &Declaration,
) -> Result<(), CheckError>
    requires low { IsLow (declaration_tree declaration.now) }
    requires cells { progress.old.cells ≤ 65536 }
    ensures ok { OnOk result (faults_at progress.old (declaration_tree declaration.now) ≡ []) }
    ensures file { OnOk result (file_of progress.new ≡ file_behind progress.old (declaration_tree declaration.now)) }
    ensures bodies { OnOk result (progress.new.functions.bodies ≡ progress.old.functions.bodies) }
    ensures globals { OnOk result (GlobalsGrow progress.old progress.new (declaration_tree declaration.now)) }
    ensures functions { OnOk result (FunctionsGrow progress.old progress.new (declaration_tree declaration.now)) }
    ensures cells { OnOk result (progress.new.cells ≤ 65536) }
    ensures err { IfErr result (λ e. Tells e (faults_at progress.old (declaration_tree declaration.now))) }
{
    match declaration {
        Declaration::Global(global) => take_global(alloc, progress, global),
        Declaration::Function(function) => take_function(alloc, progress, function),
        Declaration::Prototype(prototype) => take_prototype(alloc, progress, prototype),
    }
}
