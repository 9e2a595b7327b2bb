/// Where an instruction can go on.
#[derive(Clone, Copy)]
pub enum Edges {
    NoNode,
    OneNode(u16),
    TwoNodes(u16, u16),
}
