//! What a node links of the program that it holds, where that is the translation of the C program.

ghost use Rattle.std.specs.Prelude.{◌≡◌, ◌↔◌, Err, IfOk, IfErr, OnOk};
ghost use Rattle.std.specs.Arc.{arc_value};
ghost use Rattle.lang_base.specs.Keeps.{Keeps};
ghost use Rattle.c_program.specs.Meaning.{crun};
ghost use Rattle.c_checker_rules.specs.Checked.{program_tree};
ghost use Rattle.cminor_lowering.specs.Programs.{low};
ghost use Rattle.rtlgen_definition.specs.Gen.{gen};
ghost use Rattle.linker.specs.Names.{HaveNames};
ghost use Rattle.lang.specs.Form.{IsProgram};
ghost use Rattle.rtl_language.specs.Meaning as rtl;
ghost use Rattle.linear_language.specs.Function.{IsFunction};
ghost use Rattle.linear_language.specs.Meaning as linear;
ghost use Rattle.linker.specs.Chains.{names_of, HasNamesOf};
ghost use Rattle.farm_nodes_link.specs.Learned.{learned_by, IsUndecided};
ghost use Rattle.farm_nodes_link.specs.Refused.{IsNoMemory};
ghost use Rattle.farm_nodes_link.specs.Translated.{GoOnFromAll, IsLinkedOf, IsNotLinkedTo};

use crate::errors::LinkedError;
use crate::learned::is_undecided;
use crate::linking::named_of;
use c_checker_rules::CProgram;
use farm_nodes_turn_node::FarmNode;
use lang_base::{NoMemory, Program, keeps_composes};
use linear_language::{Function, Linear};
use linker::{LinkError, link_translated, lowered_fits, lowered_keeps, same_head_fits};
use rooms_hall::Naming;
use rtlgen_definition::generated_keeps;

/// The RTL program that a checked C program is lowered and translated to keeps its meaning.
fn translation_keeps(program: &CProgram)
    ensures { Keeps (crun (program_tree program.now)) (rtl.run (gen (low (program_tree program.now)))) }
{
    lowered_keeps(program);
    lowered_fits(program);
    generated_keeps();
    keeps_composes();
}

/// The Linear program that the node links of its own program.
fn linked_held<D, O, H: Naming>(node: &FarmNode<D, O, H>) -> Result<Program<Function>, LinkedError>
    ensures undecided { (result ≡ Err LinkedError.Undecided) ↔ IsUndecided (learned_by node.now.seats.items) }
    ensures ok { IfOk result (IsLinkedOf (arc_value node.now.program) node.now.seats.items) }
    ensures chained { OnOk result (GoOnFromAll (arc_value node.now.program) node.now.seats.items) }
    ensures same_names { IfOk result (λ made.
        names_of made.functions ≡ names_of (arc_value node.now.program).functions) }
    ensures keeps { IfOk result (λ made. Keeps (rtl.run (arc_value node.now.program)) (linear.run made)) }
    ensures refused { IfErr result (IsNotLinkedTo (arc_value node.now.program) node.now.seats.items) }
    ensures whole { GoOnFromAll (arc_value node.now.program) node.now.seats.items → IfErr result IsNoMemory }
{
    if is_undecided(&node.seats) {
        return Err(LinkedError::Undecided);
    }
    let named = match named_of(node.alloc, node.program.functions.as_slice(), &node.seats) {
        Ok(named) => named,
        Err(NoMemory) => return Err(LinkedError::Link(LinkError::NoMemory)),
    };
    match link_translated(node.alloc, &node.program, &named) {
        Ok(made) => Ok(made),
        Err(fault) => Err(LinkedError::Link(fault)),
    }
}

/// What `linked` answers of the C program whose translation the node holds, as each node of a farm does: nothing is lowered or
/// translated again. The time is linear in the program and the offers.
pub fn linked_translated<D, O, H: Naming>(
    node: &FarmNode<D, O, H>,
    program: &CProgram,
) -> Result<Program<Function>, LinkedError>
    requires { arc_value node.now.program ≡ gen (low (program_tree program.now)) }

    // Tested first, exactly: a room is undecided.
    ensures undecided { (result ≡ Err LinkedError.Undecided) ↔ IsUndecided (learned_by node.now.seats.items) }

    // What is linked are the learned offers alone, and they chain.
    ensures ok { IfOk result (IsLinkedOf (gen (low (program_tree program.now))) node.now.seats.items) }
    ensures chained { OnOk result (GoOnFromAll (gen (low (program_tree program.now))) node.now.seats.items) }
    ensures same_names { IfOk result (HasNamesOf (low (program_tree program.now))) }
    ensures keeps { IfOk result (λ made. Keeps (crun (program_tree program.now)) (linear.run made)) }

    // Where the C program's functions have C names, as those of a text do, what is linked may be written.
    ensures spelled { HaveNames (program_tree program.now) → IfOk result (IsProgram IsFunction) }

    // Why it is refused: where the learned offers chain, only memory is.
    ensures refused { IfErr result (IsNotLinkedTo (gen (low (program_tree program.now))) node.now.seats.items) }
    ensures whole { GoOnFromAll (gen (low (program_tree program.now))) node.now.seats.items →
        IfErr result IsNoMemory }
{
    translation_keeps(program);
    keeps_composes();
    match linked_held(node) {
        Ok(made) => {
            same_head_fits::<Linear>(program, &made);
            Ok(made)
        }
        Err(fault) => Err(fault),
    }
}
