//! Names: what they mean, and which may be declared (C99 6.2.1 and 6.5.1).

ghost use Rattle.std.specs.Prelude.{◌≡◌, [], IfOk, IfErr};
ghost use Rattle.c_program.specs.Views.{term_tree};
ghost use Rattle.c_checker_rules.specs.Told.{Tells};
ghost use Rattle.c_checker_rules.specs.Names as N;
ghost use Rattle.c_checker_rules.specs.Locals as L;
ghost use Rattle.c_checker_rules.specs.Globals as G;
ghost use Rattle.c_checker_rules.specs.Types.{variable_type};
ghost use Rattle.c_checker_rules.specs.Terms.{variable_term, array_number};
ghost use Rattle.c_checker_rules.specs.Expressions.{variable_faults, array_faults};

use crate::typed::Typed;
use c_checker_rules::{CheckError, Meaning};
use c_checker_scopes::Scopes;
use c_program::Term;
use c_syntax::{Identifier, IntegerType};
use std::alloc::Global;

/// The most bytes of a name.
const LONGEST_NAME: usize = 255;

/// Whether a name has at most 255 bytes.
pub fn is_short(name: &Identifier) -> bool
    ensures { result ≡ L.is_short name.now }
{
    name.name.len() <= LONGEST_NAME
}

/// Whether a name is `main` (C99 5.1.2.2.1).
pub fn is_main(name: &Identifier) -> bool
    ensures { result ≡ G.is_main name.now.name }
{
    name.name.as_slice() == b"main".as_slice()
}

/// Whether a name is not declared in the scope of this depth itself.
pub fn is_new(depth: u32, scope: &Scopes<Meaning>, name: &Identifier) -> bool
    ensures { result ≡ L.is_new depth scope.now name.now }
{
    match scope.find(name.name.as_slice()) {
        Some(binding) => binding.depth != depth,
        None => true,
    }
}

/// What a name means here, if it means anything.
pub fn meaning_of(scope: &Scopes<Meaning>, name: &Identifier) -> Option<Meaning>
    ensures { result ≡ N.meaning_of scope.now name.now }
{
    let binding = scope.find(name.name.as_slice())?;
    Some(binding.value)
}

/// A variable without size: its term and type.
pub fn variable(
    alloc: Global,
    scope: &Scopes<Meaning>,
    name: &Identifier,
) -> Result<Typed, CheckError>
    ensures ok { IfOk result (λ t. variable_faults (N.meaning_of scope.now name.now) name.now.offset ≡ []) }
    ensures kind { IfOk result (λ t. t.kind ≡ variable_type (N.meaning_of scope.now name.now)) }
    ensures term { IfOk result (λ t. term_tree t.term ≡ variable_term (N.meaning_of scope.now name.now)) }
    ensures err { IfErr result (λ e. Tells e (variable_faults (N.meaning_of scope.now name.now) name.now.offset)) }
{
    match meaning_of(scope, name) {
        Some(Meaning::Local(number, kind)) => Ok(Typed {
            term: Term::Local(number),
            kind,
        }),
        Some(Meaning::Variable(number, kind)) => {
            let cell = Box::new(alloc, Term::Constant(0))?;
            Ok(Typed {
                term: Term::Cell(number, cell),
                kind,
            })
        }
        Some(Meaning::Array(_number, _kind)) => Err(CheckError::ArrayUse(name.offset)),
        Some(Meaning::Function(_number)) => Err(CheckError::Undeclared(name.offset)),
        None => Err(CheckError::Undeclared(name.offset)),
    }
}

/// A name that has an index: the array's number, and the type of its cells.
pub fn array(scope: &Scopes<Meaning>, name: &Identifier) -> Result<(usize, IntegerType), CheckError>
    ensures ok { IfOk result (λ a. array_faults (N.meaning_of scope.now name.now) name.now.offset ≡ []) }
    ensures number { IfOk result (λ a. a.0 ≡ array_number (N.meaning_of scope.now name.now)) }
    ensures kind { IfOk result (λ a. a.1 ≡ variable_type (N.meaning_of scope.now name.now)) }
    ensures err { IfErr result (λ e. Tells e (array_faults (N.meaning_of scope.now name.now) name.now.offset)) }
{
    match meaning_of(scope, name) {
        Some(Meaning::Array(number, kind)) => Ok((number, kind)),
        Some(Meaning::Local(_number, _kind)) => Err(CheckError::ArrayUse(name.offset)),
        Some(Meaning::Variable(_number, _kind)) => Err(CheckError::ArrayUse(name.offset)),
        Some(Meaning::Function(_number)) => Err(CheckError::Undeclared(name.offset)),
        None => Err(CheckError::Undeclared(name.offset)),
    }
}
