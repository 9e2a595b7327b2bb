//! The numbers of nodes, and the front of a graph.

ghost use Rattle.lang_base.specs.Reading.{IsRead};
ghost use Rattle.lang_helpers.specs.Graphs.{node, ends};

use lang_base::{FormError, read_u16, read_u16_below};

/// One of so many nodes.
#[tactic(auto, unfolding(crate::specs::Graphs::node))]
pub fn read_node(nodes: u32, bytes: &mut &[u8]) -> Result<u16, FormError>
    ensures { IsRead (node nodes bytes.old.now) result bytes.new.now }
{
    read_u16_below(nodes, bytes)
}

/// The entry of a graph and the number of its nodes, of which it is one.
#[tactic(auto, unfolding(crate::specs::Graphs::ends))]
pub fn read_ends(bytes: &mut &[u8]) -> Result<(u16, u16), FormError>
    ensures { IsRead (ends bytes.old.now) result bytes.new.now }
{
    let entry = read_u16(bytes)?;
    let nodes = read_u16(bytes)?;
    if entry < nodes {
        Ok((entry, nodes))
    } else {
        Err(FormError::NotCanonical)
    }
}
