ghost use Rattle.std.specs.Prelude.{◌≡◌, ◌≢◌, ◌↔◌, IfOk, IfErr, OnOk};
ghost use Rattle.lang_base.specs.Keeps.{Keeps};
ghost use Rattle.linker.specs.Chains.{linked, names_beside, names_of, AllChained, Refusal, WhereWhole};

use crate::chain::NamedOf;
use crate::errors::LinkError;
use crate::functions::link_functions;
use crate::names::are_names;
use lang_base::{Language, Pass, Program, Row};
use lang_helpers::copy_globals;
use std::alloc::Global;

/// The program of the last outputs: each function is the output of its fourth offer. Nothing is searched:
/// the offers stand beside the names in the order of the program's functions.
pub fn link<P1: Pass, P2: Pass<In = P1::Out>, P3: Pass<In = P2::Out>, P4: Pass<In = P3::Out>>(
    alloc: Global,
    program: &Program<<P1::In as Language>::Fun>,
    named: &[NamedOf<'_, P1, P2, P3, P4>],
) -> Result<Program<<P4::Out as Language>::Fun>, LinkError>
    ensures ok { IfOk result (λ made. made ≡ linked program.now named.now) }
    ensures same_names { IfOk result (λ made. names_of made.functions ≡ names_of program.now.functions) }
    ensures chained { OnOk result (AllChained program.now.functions named.now) }
    ensures keeps { IfOk result (λ made. Keeps (P1.In.run program.now) (P4.Out.run made)) }

    // Tested first: the names are others, or not as many.
    ensures names { (result ≡ Err LinkError.Names) ↔ (names_beside named.now ≢ names_of program.now.functions) }
    ensures refused { IfErr result (λ e. Refusal program.now.functions named.now e) }

    // Where the names are the program's and all chains are whole, only memory can be refused.
    ensures whole { WhereWhole program.now.functions named.now (IfErr result (λ e. e ≡ LinkError.NoMemory)) }
{
    if !are_names(program.functions.as_slice(), named) {
        return Err(LinkError::Names);
    }
    let globals = copy_globals(alloc, &program.globals)?;
    let functions = link_functions::<P1, P2, P3, P4>(alloc, program.functions.as_slice(), named)?;
    Ok(Program {
        globals,
        functions: Row::from_vec(functions),
    })
}
