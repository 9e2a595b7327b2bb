//! The learned offers, and no others, are handed to the linker.

ghost use Rattle.std.specs.Prelude.{◌≡◌, ◌↔◌, All, Err, length, IfOk, IfErr, IsErrAnd, OnOk};
ghost use Rattle.lang_base.specs.Keeps.{Keeps};
ghost use Rattle.c_program.specs.Meaning.{crun};
ghost use Rattle.c_checker_rules.specs.Checked.{program_tree};
ghost use Rattle.cminor_lowering.specs.Programs.{low};
ghost use Rattle.rtlgen_definition.specs.Gen.{gen};
ghost use Rattle.linker.specs.RtlgenRefused.{HasFewNodes};
ghost use Rattle.linker.specs.Names.{HaveNames};
ghost use Rattle.lang.specs.Form.{IsProgram};
ghost use Rattle.linear_language.specs.Function.{IsFunction};
ghost use Rattle.linear_language.specs.Meaning as linear;
ghost use Rattle.linker.specs.Chains.{names_beside, names_of, HasNamesOf};
ghost use Rattle.farm_nodes_link.specs.Learned.{learned_by, IsUndecided};
ghost use Rattle.farm_nodes_link.specs.Lent.{lent_beside};
ghost use Rattle.farm_nodes_link.specs.Linking.{CannotLink, IsOtherNames, OnlyMemoryFails, SameNames};
ghost use Rattle.farm_nodes_link.specs.Translated.{GoOnFromAll, IsLinkedOf};

use crate::errors::LinkedError;
use crate::learned::{chain_of, is_undecided};
use c_checker_rules::CProgram;
use farm_nodes_meet_seats::NumberedSeat;
use farm_nodes_turn_node::FarmNode;
use lang_base::{NoMemory, Program};
use linear_language::Function;
use linker::{LinkError, Named, link};
use rooms_hall::Naming;
use std::alloc::Global;

/// Each function's name, with the offers that were learned.
pub(crate) fn named_of<'a, H: Naming>(
    alloc: Global,
    functions: &'a [lang_base::Named<rtl_language::Function>],
    seats: &'a [NumberedSeat<H>],
) -> Result<Vec<Named<'a>>, NoMemory>
    requires { length functions.now ≡ length seats.now }
    ensures names { IfOk result (λ named. names_beside named.items ≡ names_of functions.now) }
    ensures offers { IfOk result (λ named. lent_beside named.items ≡ learned_by seats.now) }
{
    let mut named = Vec::with_capacity(alloc, functions.len())?;
    for number in 0..functions.len() {
        named.push(Named {
            name: functions[number].name.as_slice(),
            chain: chain_of(&seats[number]),
        })?;
    }
    Ok(named)
}

/// The Linear program that the node links for a checked C program, whose meaning it keeps: each function is the output of the
/// offer that the node has learned in the fourth room, whoever made it. A stopped node links as any other: nothing is changed. The
/// time is linear in the program and the offers.
pub fn linked<D, O, H: Naming>(
    node: &FarmNode<D, O, H>,
    program: &CProgram,
) -> Result<Program<Function>, LinkedError>
    // Tested first, exactly: a room is undecided.
    ensures undecided { (result ≡ Err LinkedError.Undecided) ↔ IsUndecided (learned_by node.now.seats.items) }

    // What is linked are the learned offers alone, and they chain.
    ensures ok { IfOk result (IsLinkedOf (gen (low (program_tree program.now))) node.now.seats.items) }
    ensures chained { OnOk result (GoOnFromAll (gen (low (program_tree program.now))) node.now.seats.items) }
    ensures same_names { IfOk result (HasNamesOf (low (program_tree program.now))) }
    ensures keeps { IfOk result (λ made. Keeps (crun (program_tree program.now)) (linear.run made)) }
    ensures few { OnOk result (All HasFewNodes (low (program_tree program.now)).functions) }

    // Where the C program's functions have C names, as those of a text do, what is linked may be written.
    ensures spelled { HaveNames (program_tree program.now) → IfOk result (IsProgram IsFunction) }

    // Tested behind that: the names of the node's own program are others, or not as many.
    ensures names { (SameNames node.now program.now → ⊥) → IsErrAnd result IsOtherNames }

    // Why it is refused.
    ensures refused { IfErr result (CannotLink node.now program.now) }

    // Where the names are the program's, no function needs too many nodes and the learned offers chain, only memory is refused.
    ensures whole { OnlyMemoryFails node.now program.now result }
{
    if is_undecided(&node.seats) {
        return Err(LinkedError::Undecided);
    }
    let named = match named_of(node.alloc, node.program.functions.as_slice(), &node.seats) {
        Ok(named) => named,
        Err(NoMemory) => return Err(LinkedError::Link(LinkError::NoMemory)),
    };
    match link(node.alloc, program, &named) {
        Ok(made) => Ok(made),
        Err(fault) => Err(LinkedError::Link(fault)),
    }
}
