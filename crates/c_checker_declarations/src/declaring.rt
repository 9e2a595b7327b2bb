//! The declaration of a function's name (C99 6.2.1 and 6.7.5.3).

ghost use Rattle.std.specs.Prelude.{◌≡◌, OnOk};
ghost use Rattle.c_checker_rules.specs.Functions as F;
ghost use Rattle.c_checker_declarations.specs.Sources.{signed_with};

use c_checker_rules::{Meaning, Signature};
use c_checker_scopes::Scopes;
use c_checker_terms::Functions;
use c_syntax::Identifier;
use lang_base::NoMemory;

/// Declares a function in the file's scope. A name that is declared already keeps its meaning. Behind an error
/// nothing is said of the two tables.
#[tactic(auto, using(crate::proofs::Naming::named_new, crate::proofs::Naming::named_again))]
pub fn declare_function(
    functions: &mut Functions,
    scope: &mut Scopes<Meaning>,
    name: &Identifier,
    signature: Signature,
) -> Result<(), NoMemory>
    ensures scope { OnOk result (scope.new ≡ F.with_function functions.old.signatures scope.old name.now) }
    ensures signatures { OnOk result (functions.new.signatures ≡ signed_with functions.old scope.old name.now signature) }
    ensures bodies { OnOk result (functions.new.bodies ≡ functions.old.bodies) }
{
    if scope.find(name.name.as_slice()).is_some() {
        return Ok(());
    }
    let number = functions.signatures.len();
    functions.signatures.push(signature)?;
    scope.bind(name.name.as_slice(), 0, Meaning::Function(number))
}
