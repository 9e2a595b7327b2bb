//! A whole text (C99 6.9).

ghost use Rattle.std.specs.Prelude.{◌≡◌, [], map, IfOk, IfErr};
ghost use Rattle.std.specs.List.{AllByRecursion};
ghost use Rattle.c_syntax.specs.Heights.{IsLow};
ghost use Rattle.c_syntax.specs.Views.{declaration_tree};
ghost use Rattle.c_program.specs.Views.{function_tree};
ghost use Rattle.c_checker_rules.specs.Told.{Tells};
ghost use Rattle.c_checker_rules.specs.Units as U;
ghost use Rattle.c_checker.specs.Reached.{file_of, faults_in, globals_of, functions_of};

use crate::declaration::take;
use crate::progress::Progress;
use c_checker_declarations::{Functions, Here};
use c_checker_rules::CheckError;
use c_checker_scopes::Scopes;
use c_program::Function;
use c_syntax::Declaration;
use std::alloc::Global;

/// What is known before the first declaration, with the functions that have bodies.
pub fn beginning<F: Drop>(alloc: Global, bodies: Scopes<usize>) -> Progress<F>
    ensures file { file_of result ≡ U.empty_file }
    ensures bodies { result.functions.bodies ≡ bodies }
    ensures globals { result.globals.items ≡ [] }
    ensures defined { result.defined.items ≡ [] }
    ensures cells { result.cells ≡ 0 }
{
    Progress {
        here: Here {
            scope: Scopes::new(alloc),
            locals: 0,
        },
        functions: Functions {
            signatures: Vec::new(alloc),
            bodies,
        },
        globals: Vec::new(alloc),
        defined: Vec::new(alloc),
        cells: 0,
    }
}

/// What is known behind these declarations, which are a whole text's; or the first fault in them.
pub(crate) fn take_all(
    alloc: Global,
    bodies: Scopes<usize>,
    declarations: &[Declaration],
) -> Result<Progress<Function>, CheckError>
    requires { AllByRecursion IsLow (map declaration_tree declarations.now) }
    ensures ok { IfOk result (λ p. faults_in bodies declarations.now ≡ []) }
    ensures globals { IfOk result (λ p. p.globals.items ≡ globals_of declarations.now) }
    ensures functions { IfOk result (λ p. map function_tree p.defined.items ≡ functions_of bodies declarations.now) }
    ensures bodies { IfOk result (λ p. p.functions.bodies ≡ bodies) }
    ensures err { IfErr result (λ e. Tells e (faults_in bodies declarations.now)) }
{
    let mut progress = beginning(alloc, bodies);
    for declaration in declarations {
        take(alloc, &mut progress, declaration)?;
    }
    Ok(progress)
}
