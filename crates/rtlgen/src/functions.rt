//! Functions.

ghost use Rattle.std.specs.Prelude.{◌≡◌, ◌≤◌, length, IfOk, OnSome};
ghost use Rattle.rtlgen_code.specs.Adding.{Adds};
ghost use Rattle.rtlgen_definition.specs.Gen.{numbers_from, ending, gen_function};
ghost use Rattle.rtl_language.specs.Function.{node_limit};
ghost use Rattle.rtlgen.specs.Made.{body_piece, IsMadeOf, IsMadeOfNamed};
ghost use Rattle.rtlgen.specs.Refused.{HasFewNodes};

use crate::{generated_fits, generated_is_small};
use cminor_language::Function as CminorFunction;
use lang_base::{Named, NoMemory, Row};
use rtl_language::{Function, Instruction};
use rtlgen_code::{Graph, add_statement, ends_with_value, statement_needs};
use std::alloc::Global;

/// The first registers, which are the parameters.
fn first_registers(alloc: Global, count: u8) -> Result<Vec<u16>, NoMemory>
    ensures { IfOk result (λ registers. registers.items ≡ numbers_from 0 count) }
{
    let mut registers = Vec::new(alloc);
    for number in 0..count {
        registers.push(u16::from(number))?;
    }
    Ok(registers)
}

/// What stands at the end of a body: a `return` of nothing, where the end can be reached.
fn add_ending(graph: &mut Graph, is_left: bool) -> Result<u16, NoMemory>
    ensures { IfOk result (λ entry. Adds (ending is_left) 0 graph.old graph.new entry) }
{
    if is_left {
        return Ok(0);
    }
    graph.add(Instruction::Return { value: None })
}

/// A body's code, and the node where it begins.
fn add_body(alloc: Global, graph: &mut Graph, function: &CminorFunction) -> Result<u16, NoMemory>
    ensures { IfOk result (λ entry. Adds (body_piece function.now) 0 graph.old graph.new entry) }
{
    generated_is_small();
    let body = function.body();
    let mut exits = Vec::new(alloc);
    let last = add_ending(graph, ends_with_value(body))?;
    add_statement(alloc, graph, &mut exits, body, function.variables(), last)
}

/// The RTL function of a Cminor function; none where it needs too many nodes.
fn translate_function(
    alloc: Global,
    function: &CminorFunction,
) -> Result<Option<Function>, NoMemory>
    ensures made { IfOk result (IsMadeOf function.now) }
    ensures few { IfOk result (λ made. OnSome made (length (gen_function function.now).nodes ≤ node_limit)) }
{
    generated_fits();
    generated_is_small();
    let mut graph = Graph::new(alloc);
    let entry = add_body(alloc, &mut graph, function)?;
    if graph.is_full {
        return Ok(None);
    }
    let Graph { nodes, .. } = graph;
    let registers = function.variables() + statement_needs(function.body());
    let parameters = first_registers(alloc, function.parameters())?;
    Ok(Some(Function::new(
        Row::from_vec(parameters),
        registers,
        entry,
        Row::from_vec(nodes),
    )))
}

/// A function and its name; none where it needs too many nodes.
pub(crate) fn translate_named(
    alloc: Global,
    named: &Named<CminorFunction>,
) -> Result<Option<Named<Function>>, NoMemory>
    ensures made { IfOk result (IsMadeOfNamed named.now) }
    ensures few { IfOk result (λ made. OnSome made (HasFewNodes named.now)) }
{
    let Some(function) = translate_function(alloc, &named.function)? else {
        return Ok(None);
    };
    let name = named.name.copied(alloc)?;
    Ok(Some(Named { name, function }))
}
