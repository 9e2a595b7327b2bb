//! Which functions have bodies.

ghost use Rattle.std.specs.Prelude.{◌≡◌, [], map, OnOk, IfOk, OnErr};
ghost use Rattle.c_syntax.specs.Views.{declaration_tree};
ghost use Rattle.c_checker_rules.specs.Units as U;

use c_checker_scopes::Scopes;
use c_syntax::{Declaration, Identifier};
use lang_base::NoMemory;
use std::alloc::Global;

/// A function with a body of this number; of two of one name the first counts.
fn add_body(bodies: &mut Scopes<usize>, number: usize, name: &Identifier) -> Result<(), NoMemory>
    ensures { OnOk result (bodies.new ≡ U.with_body number bodies.old name.now.name) }
{
    if bodies.find(name.name.as_slice()).is_none() {
        bodies.bind(name.name.as_slice(), 0, number)?;
    }
    Ok(())
}

/// The functions with bodies, each with its number in the order of the text.
pub fn bodies_of(alloc: Global, declarations: &[Declaration]) -> Result<Scopes<usize>, NoMemory>
    ensures { IfOk result (λ b. b ≡ U.bodies_from 0 [] (map declaration_tree declarations.now)) }
{
    let mut bodies = Scopes::new(alloc);
    let mut number = 0;
    for declaration in declarations {
        if let Declaration::Function(function) = declaration {
            add_body(&mut bodies, number, &function.name)?;
            number += 1;
        }
    }
    Ok(bodies)
}
