//! The names of a program's functions as text.

ghost use Rattle.std.specs.Prelude.{◌≡◌, ◌<◌, length, map, IfOk};
ghost use Rattle.std.specs.String.{string_bytes};
ghost use Rattle.c_lexer_lexemes.specs.Lexemes.{IsName};
ghost use Rattle.c_checker_rules.specs.Checked.{program_tree};
ghost use Rattle.cminor_program_ranges.specs.Names.{HaveNames};
ghost use Rattle.farm_nodes_source.specs.Refused.{HasNameAt};

use c_checker_rules::CProgram;
use lang_base::NoMemory;
use std::alloc::Global;

/// A C name as text: it is letters, digits and underscores.
pub fn text_of(name: Vec<u8>) -> String
    requires { IsName name.items }
    ensures { string_bytes result ≡ name.items }
{
    match String::from_utf8(name) {
        Ok(text) => text,
        Err(_) => unreachable!(),
    }
}

/// The name of the function of this number, as text.
pub fn name_of(alloc: Global, program: &CProgram, function: usize) -> Result<String, NoMemory>
    requires names { HaveNames (program_tree program.now) }
    requires number { function < length program.now.functions }
    ensures { IfOk result (λ name.
        HasNameAt (map (λ f. f.name) program.now.functions) function (string_bytes name)) }
{
    match program.functions()[function].name.copied(alloc) {
        Ok(name) => Ok(text_of(name.into_vec())),
        Err(NoMemory) => Err(NoMemory),
    }
}
