/// What a build makes.
#[derive(Drop)]
pub struct Built {
    /// The bytes of the linked program.
    pub program: Vec<u8>,
    /// The bytes of the bundle of the offers that were linked, where it was asked for.
    pub bundle: Option<Vec<u8>>,
    /// One line of JSON, without the end of the line.
    pub report: String,
}
