/// The bytes of a node's two files, that of the new journal and that of the old one; none where there is no such file.
#[derive(Drop)]
pub struct NodeFiles {
    pub new: Vec<u8>,
    pub old: Vec<u8>,
}
