//! What nodes that took their turns, and have met, make.

ghost use Rattle.std.specs.Prelude.{◌≡◌, ◌<◌, ◌≤◌, ℕ, Some, IsTrue, is_some, length, map, IfOk, IfErr};
ghost use Rattle.std.specs.Arc.{arc_value};
ghost use Rattle.std.specs.List.{AllByRecursion};
ghost use Rattle.c_checker_rules.specs.Checked.{program_tree};
ghost use Rattle.cminor_lowering.specs.Programs.{low};
ghost use Rattle.cminor_program_ranges.specs.Names.{HaveNames};
ghost use Rattle.rtlgen_definition.specs.Gen.{gen};
ghost use Rattle.cfarm_build_result.specs.Numbers.{function_of_link_error};
ghost use Rattle.cfarm_build_result.specs.Alike.{HaveCounted};
ghost use Rattle.cfarm_build_result.specs.Learned.{learned_by, IsUndecided};
ghost use Rattle.cfarm_build_linking.specs.Built.{IsBuiltBy};
ghost use Rattle.cfarm_build_result.specs.Neighbours.{EachTwo};
ghost use Rattle.cfarm_build_result.specs.Node.{node};
ghost use Rattle.cfarm_build_linking.specs.Refused.{IsNotLinked, IsRefusedBy, IsToldOf};

use c_checker_rules::CProgram;
use cfarm_build_faults::BuildError;
use cfarm_build_result::{
    Built, FarmNode, LinkError, LinkedError, Source, is_undecided, linked_translated, made_of,
    name_of,
};
use lang_base::NoMemory;
use rooms_hall::Naming;
use std::alloc::Global;

/// Whether each node links all functions.
fn all_link<D, O, H: Naming>(nodes: &[FarmNode<D, O, H>]) -> bool
    ensures yes { IsTrue result → AllByRecursion (λ n. IsUndecided (learned_by n.seats.items) → ⊥) nodes.now }
    ensures no { (IsTrue result → ⊥) → IsNotLinked (map (λ n. node n.log n.seats.items n.halted) nodes.now) }
{
    for number in 0..nodes.len() {
        if is_undecided(&nodes[number].seats) {
            return false;
        }
    }
    true
}

/// A refusal of the linker, with the name of its function.
fn unlinked(alloc: Global, program: &CProgram, fault: LinkError) -> BuildError
    requires names { HaveNames (program_tree program.now) }
    requires number { (i : ℕ) → function_of_link_error fault ≡ Some i → i < length program.now.functions }
    ensures { IsToldOf (map (λ f. f.name) program.now.functions) fault result }
{
    let Some(function) = fault.function() else {
        return match fault {
            LinkError::Names => BuildError::Names,
            _ => BuildError::NoMemory,
        };
    };
    match name_of(alloc, program, function) {
        Ok(name) => BuildError::Unlinked(fault, name),
        Err(NoMemory) => BuildError::NoMemory,
    }
}

/// The bytes of what the first of the nodes links, the bundle of it where that is asked for, and the report with the numbers that it has
/// learned. Each of them links all functions.
fn made_by<D, O, H: Naming>(
    alloc: Global,
    source: &Source,
    nodes: &[FarmNode<D, O, H>],
    bundles: bool,
) -> Result<Built, BuildError>
    requires some { 0 < length nodes.now }
    requires counted { EachTwo (λ n m. HaveCounted n.seats.items m.seats.items) nodes.now }
    requires decided { AllByRecursion (λ n. IsUndecided (learned_by n.seats.items) → ⊥) nodes.now }
    requires translated { arc_value source.now.translated ≡ gen (low (program_tree source.now.program)) }
    requires names { HaveNames (program_tree source.now.program) }
    requires count { length (arc_value source.now.translated).functions ≤ 64 }
    requires program { AllByRecursion (λ n. arc_value n.program ≡ arc_value source.now.translated) nodes.now }
    ensures built { IfOk result (IsBuiltBy source.now (map (λ n. node n.log n.seats.items n.halted) nodes.now)) }
    ensures asked { IfOk result (λ built. is_some built.bundle ≡ bundles) }
    ensures refused { IfErr result
        (IsRefusedBy source.now (map (λ n. node n.log n.seats.items n.halted) nodes.now)) }
{
    let first = &nodes[0];
    let program = match linked_translated(first, &source.program) {
        Ok(program) => program,
        Err(LinkedError::Undecided) => return Err(BuildError::Undecided),
        Err(LinkedError::Link(fault)) => return Err(unlinked(alloc, &source.program, fault)),
    };
    match made_of(
        alloc,
        &source.program,
        &source.digest,
        &program,
        &first.seats,
        nodes.len(),
        bundles,
    ) {
        Ok(built) => Ok(built),
        Err(NoMemory) => Err(BuildError::NoMemory),
    }
}

/// What all the nodes link, each two neighbours of whom met, all functions being counted: the bytes of the one program, its bundle
/// where that is asked for, and the report.
pub fn built_by<D, O, H: Naming>(
    alloc: Global,
    source: &Source,
    nodes: &[FarmNode<D, O, H>],
    bundles: bool,
) -> Result<Built, BuildError>
    requires some { 0 < length nodes.now }
    requires counted { EachTwo (λ n m. HaveCounted n.seats.items m.seats.items) nodes.now }
    requires translated { arc_value source.now.translated ≡ gen (low (program_tree source.now.program)) }
    requires names { HaveNames (program_tree source.now.program) }
    requires count { length (arc_value source.now.translated).functions ≤ 64 }
    requires program { AllByRecursion (λ n. arc_value n.program ≡ arc_value source.now.translated) nodes.now }
    ensures built { IfOk result (IsBuiltBy source.now (map (λ n. node n.log n.seats.items n.halted) nodes.now)) }
    ensures asked { IfOk result (λ built. is_some built.bundle ≡ bundles) }
    ensures refused { IfErr result
        (IsRefusedBy source.now (map (λ n. node n.log n.seats.items n.halted) nodes.now)) }
{
    if !all_link(nodes) {
        return Err(BuildError::Undecided);
    }
    made_by(alloc, source, nodes, bundles)
}
