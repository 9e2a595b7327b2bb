use c_syntax::TokenKind;

/// A part of a text, at its front: so many bytes, and the token that they are, or none where they
/// are white space or a comment.
#[derive(Drop)]
pub struct Found {
    pub kind: Option<TokenKind>,
    pub len: usize,
}
