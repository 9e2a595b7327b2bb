/// A vote: the value that an acceptor accepted, and the ballot under which it did.
///
/// A value is a node's number, and stands for the offer of that node.
#[derive(Clone, Copy, Debug, PartialEq, Eq)]
pub struct Vote {
    pub ballot: u16,
    pub value: u16,
}
