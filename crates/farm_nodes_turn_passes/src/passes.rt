/// One of each pass, such as a node's optimisers.
#[derive(Drop)]
pub struct Passes<A, B, C, E> {
    pub constants: A,
    pub expressions: B,
    pub allocation: C,
    pub order: E,
}
