use lang_base::Row;

/// The written offers of one function, one for each pass, in the order of the passes.
#[derive(Drop)]
pub struct Texts {
    pub constants: Row<u8>,
    pub expressions: Row<u8>,
    pub allocation: Row<u8>,
    pub order: Row<u8>,
}

/// What a bundle holds.
#[derive(Drop)]
pub struct Bundle {
    /// The SHA-256 of the C text.
    pub digest: Row<u8>,
    /// The offers of each function, in the order of the text.
    pub functions: Row<Texts>,
}
