//! The texts of questions.

use std::alloc::Global;
use worked_row_files::{bytes_of, fine, some};

/// So many pieces.
fn push_pieces(text: &mut Vec<u8>, count: u32, piece: &str) -> Option<()> {
    for _ in 0..count {
        fine!(text.extend_from_slice(piece.as_bytes()));
    }
    Some(())
}

/// So many pieces behind a front, a middle, and as many ends: `COUNT|FRONT|PIECE|MIDDLE|END`.
pub fn repeated(alloc: Global, words: &str) -> Option<Vec<u8>> {
    let (count, rest) = some!(words.split_once('|'));
    let (front, rest) = some!(rest.split_once('|'));
    let (piece, rest) = some!(rest.split_once('|'));
    let (middle, end) = some!(rest.split_once('|'));
    let count: u32 = fine!(count.parse());
    let mut text = fine!(front.as_bytes().to_vec(alloc));
    some!(push_pieces(&mut text, count, piece));
    some!(push_pieces(&mut text, 1, middle));
    some!(push_pieces(&mut text, count, end));
    Some(text)
}

/// The text of a question.
pub fn text_of(alloc: Global, words: &str) -> Option<Vec<u8>> {
    if let Some(hex) = words.strip_prefix('%') {
        return bytes_of(alloc, hex);
    }
    if let Some(words) = words.strip_prefix('@') {
        return repeated(alloc, words);
    }
    words.as_bytes().to_vec(alloc).ok()
}
