use bundle_offers::JudgedBundle;
use lang_base::{FormError, Program};
use linear_language::Function;

/// What is found of the files of a program and of a bundle.
#[derive(Drop)]
pub struct Forms {
    pub program: Result<Program<Function>, FormError>,
    /// The SHA-256 of the program's bytes.
    pub hash: [u8; 32],
    pub bundle: Result<JudgedBundle, FormError>,
}
