use crate::behind::{Written, change_by, edges, fits, is_folded, is_kept, made};
use crate::form::{push_fact, read_fact};
use crate::keeping::keep;
use crate::pass::ConstProp;
use constprop_check_rules::Fact;
use lang_base::{FormError, NoMemory};
use rtl_passes_facts::{Edges, Instruction, Rules};

impl Rules for ConstProp {
    ghost use Rattle.constprop_check_rules.specs.Rules.{propagation};
    ghost use Rattle.constprop_check.specs.Behind.{change_of, makes, keeps};
    ghost use Rattle.constprop_check.specs.FactForm.{fact, fact_text, fact_form};
    ghost use Rattle.constprop_check.specs.PassLaws.{ranked_law, known_law, changes_law, along_law};

    type Fact = Fact;

    type Change = Written;

    ghost rules = { propagation };

    ghost part = { λ registers. fact registers };

    ghost text = { fact_text };

    ghost change_of = { change_of };

    ghost makes = { makes };

    ghost keeps = { keeps };

    fn place(fact: &Fact) -> u64 {
        u64::from(fact.register)
    }

    fn is_one(first: &Fact, second: &Fact) -> bool {
        first.register == second.register && first.word == second.word
    }

    fn is_fit(registers: u16, fact: &Fact) -> bool {
        fits(registers, *fact)
    }

    fn read_fact(registers: u32, bytes: &mut &[u8]) -> Result<Fact, FormError> {
        read_fact(registers, bytes)
    }

    fn push_fact(out: &mut Vec<u8>, fact: &Fact) -> Result<(), NoMemory> {
        push_fact(out, fact)
    }

    fn edges(instruction: &Instruction, facts: &[Fact]) -> Edges {
        edges(instruction, facts)
    }

    fn change_by(instruction: &Instruction, facts: &[Fact]) -> Written {
        change_by(instruction, facts)
    }

    fn made(change: Written) -> Option<Fact> {
        made(change)
    }

    fn is_kept(change: Written, fact: &Fact) -> bool {
        is_kept(change, fact)
    }

    fn keep(facts: &mut Vec<Fact>, change: Written) {
        keep(facts, change);
    }

    fn is_allowed(facts: &[Fact], input: &Instruction, output: &Instruction) -> bool {
        is_folded(facts, input, output)
    }

    ghost ranked = { ranked_law };

    ghost known = { known_law };

    ghost changes = { changes_law };

    ghost along = { along_law };

    ghost form = { fact_form };
}
