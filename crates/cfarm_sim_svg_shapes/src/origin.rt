/// Where a message was sent: by which node, and in which row, from 0.
#[derive(Clone, Copy, Debug, PartialEq, Eq)]
pub struct Origin {
    pub node: u8,
    pub row: u32,
}
