use crate::behind::{edges, fits};
use crate::change::{Change, change_by, is_kept, keep};
use crate::moves::is_shared;
use crate::pass::Cse;
use cse_check_rules::{Equation, is_same, push_equation, rank, read_equation};
use lang_base::{FormError, NoMemory};
use rtl_passes_facts::{Edges, Instruction, Rules};

impl Rules for Cse {
    ghost use Rattle.cse_check_rules.specs.Order.{equation_text};
    ghost use Rattle.cse_check_rules.specs.Rules.{elimination};
    ghost use Rattle.cse_check_rules.specs.Reading.{equation};
    ghost use Rattle.cse_check_rules.proofs.Forms.{equation_form};
    ghost use Rattle.cse_check.specs.Change.{change_of, keeps};
    ghost use Rattle.cse_check.specs.PassLaws.{ranked_law, known_law, changes_law, along_law};

    type Fact = Equation;

    type Change = Change;

    ghost rules = { elimination };

    ghost part = { λ registers. equation registers };

    ghost text = { equation_text };

    ghost change_of = { λ i before. change_of i };

    ghost makes = { λ change. change.made };

    ghost keeps = { keeps };

    fn place(equation: &Equation) -> u64 {
        rank(equation)
    }

    fn is_one(first: &Equation, second: &Equation) -> bool {
        is_same(*first, *second)
    }

    fn is_fit(registers: u16, equation: &Equation) -> bool {
        fits(registers, equation)
    }

    fn read_fact(registers: u32, bytes: &mut &[u8]) -> Result<Equation, FormError> {
        read_equation(registers, bytes)
    }

    fn push_fact(out: &mut Vec<u8>, equation: &Equation) -> Result<(), NoMemory> {
        push_equation(out, equation)
    }

    fn edges(instruction: &Instruction, _equations: &[Equation]) -> Edges {
        edges(instruction)
    }

    fn change_by(instruction: &Instruction, _equations: &[Equation]) -> Change {
        change_by(instruction)
    }

    fn made(change: Change) -> Option<Equation> {
        change.made
    }

    fn is_kept(change: Change, equation: &Equation) -> bool {
        is_kept(change, equation)
    }

    fn keep(equations: &mut Vec<Equation>, change: Change) {
        keep(equations, change);
    }

    fn is_allowed(equations: &[Equation], input: &Instruction, output: &Instruction) -> bool {
        is_shared(equations, input, output)
    }

    ghost ranked = { ranked_law };

    ghost known = { known_law };

    ghost changes = { changes_law };

    ghost along = { λ i equations. along_law i };

    ghost form = { λ registers few. equation_form registers few };
}
