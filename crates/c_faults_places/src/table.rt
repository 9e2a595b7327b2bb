//! The places of a text's functions.

ghost use Rattle.std.specs.Prelude.{IfOk};
ghost use Rattle.c_faults_places.specs.Table.{PlacesAre, TableIs};

use crate::actions::add_actions;
use c_faults_tokens::{behind_declaration, behind_statements, body_tokens, start};
use c_syntax::{Declaration, Function, Token};
use lang_base::{NoMemory, Row};
use std::alloc::Global;

/// The places of a function: of its closing brace, and then of its parts.
fn function_places(
    alloc: Global,
    function: &Function,
    checked: &c_program::Function,
    tokens: &[Token],
) -> Result<Row<usize>, NoMemory>
    ensures { IfOk result (λ places. PlacesAre function.now checked.now tokens.now places) }
{
    let body = body_tokens(function, tokens);
    let end = behind_statements(function.body.as_slice(), body);
    let mut places = Vec::new(alloc);
    places.push(start(end))?;
    add_actions(
        &mut places,
        function.body.as_slice(),
        checked.body.as_slice(),
        body,
    )?;
    Ok(Row::from_vec(places))
}

/// The places of a text's functions, in the order of the definitions, where the checked functions and the tokens are those of its
/// declarations.
#[tactic(auto, using(crate::proofs::Tables::no_checked, crate::proofs::Tables::one_function, crate::proofs::Tables::no_global, crate::proofs::Tables::no_prototype))]
pub fn places_of(
    alloc: Global,
    declarations: &[Declaration],
    functions: &[c_program::Function],
    tokens: &[Token],
) -> Result<Vec<Row<usize>>, NoMemory>
    ensures { IfOk result (λ places. TableIs declarations.now functions.now tokens.now places.items) }
{
    let mut table = Vec::new(alloc);
    let mut left = functions;
    let mut rest = tokens;
    for declaration in declarations {
        match declaration {
            Declaration::Function(function) => {
                let [checked, more @ ..] = left else {
                    return Ok(table);
                };
                table.push(function_places(alloc, function, checked, rest)?)?;
                left = more;
                rest = behind_declaration(declaration, rest);
            }
            Declaration::Global(_) | Declaration::Prototype(_) => {
                rest = behind_declaration(declaration, rest);
            }
        }
    }
    Ok(table)
}
