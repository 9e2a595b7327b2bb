//! From an accepted text to what two nodes of its farm link.

ghost use Rattle.std.specs.Prelude.{◌≢◌, Err, IfErr};
ghost use Rattle.farm_nodes_link.specs.Alike.{HaveCounted};
ghost use Rattle.farm_nodes_link.specs.Linking.{CannotLink};
ghost use Rattle.farm_nodes.specs.OneProgram.{LinkOneProgram};

use farm_nodes_link::{FarmNode, LinkedError, linked};
use farm_nodes_source::Source;
use lang_base::Program;
use linear_language::Function;
use rooms_hall::Naming;

/// The program that two nodes of a farm link, which met, all functions being counted: `meet` tells how many were, and `one_program`
/// that such nodes have been counted. It does not matter which turns each took before, how often it came back from its journal, or
/// whom it met since.
pub fn linked_by_both<D, O, H: Naming>(
    source: &Source,
    first: &FarmNode<D, O, H>,
    second: &FarmNode<D, O, H>,
) -> Result<Program<Function>, LinkedError>
    requires { HaveCounted first.now.seats.items second.now.seats.items }

    // Of each text that the source is of: the text is accepted, and both nodes link one program, which does what the text's program does.
    ensures one { LinkOneProgram source.now first.now.seats.items second.now.seats.items result }

    // No room is undecided; whatever else the linker refuses of the first it refuses.
    ensures decided { result ≢ Err LinkedError.Undecided }
    ensures refused { IfErr result (CannotLink first.now source.now.program) }
{
    linked(first, &source.program)
}
