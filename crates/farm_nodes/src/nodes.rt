ghost use Rattle.std.specs.Prelude.{◌≡◌};

use crate::farm::Farm;
use farm_nodes_link::FarmNode;
use rooms_hall::Naming;

impl<D: Drop, O: Drop, H: Naming> Farm<D, O, H> {
    /// Its nodes, in their order.
    pub fn into_nodes(self) -> Vec<FarmNode<D, O, H>>
        ensures { result ≡ self.nodes }
    {
        let Farm {
            source: _source,
            nodes,
        } = self;
        nodes
    }
}
