use std::marker::Model;

/// The certificate: node numbers, in the order in which the nodes' stretches stand in the code.
/// Anybody may propose one, so nothing is promised of the numbers.
#[derive(Drop)]
pub struct Order {
    nodes: Vec<u16>,
}

impl Model for Order {
    ghost use Rattle.std.specs.Prelude.{List, ℕ};

    ghost Value = { List ℕ };

    ghost view = { λ order. order.nodes.items };
}

impl Order {
    ghost use Rattle.std.specs.Prelude.{◌≡◌};

    /// The order of these nodes; takes no memory.
    pub fn from_vec(nodes: Vec<u16>) -> Order
        ensures { result ≡ nodes.items }
    {
        Order { nodes }
    }

    /// Gives the nodes back; takes no memory.
    pub fn into_vec(self) -> Vec<u16>
        ensures { result.items ≡ self }
    {
        let Order { nodes } = self;
        nodes
    }

    /// The nodes in order.
    pub fn as_slice(&self) -> &[u16]
        ensures { result.now ≡ self.now }
    {
        self.nodes.as_slice()
    }
}
