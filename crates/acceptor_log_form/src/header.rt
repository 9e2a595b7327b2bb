/// How many bytes a header has at the front of a journal.
pub const HEADER_SIZE: usize = 40;

/// Whose journal it is: the number of nodes, how many of them are a promise quorum and how many an accept quorum, the
/// node (the first being 0), and the SHA-256 of the source that they compile.
#[derive(Clone, Copy, Debug, PartialEq, Eq)]
pub struct Header {
    pub nodes: u8,
    pub promise: u8,
    pub accept: u8,
    pub node: u8,
    pub digest: [u8; 32],
}
