//! A text and what is known of it.

use crate::{fine, some};
use std::alloc::Global;

/// How the lines of a file are written.
#[derive(Clone, Copy, Debug, PartialEq, Eq)]
pub enum Form {
    /// The text in hex, the bound, the output in hex or `-`, and the closing line, with blanks between.
    Hex,
    /// The bound or `check`, the text, the output and the closing line, with tabs between.
    Plain,
}

/// A C text, the bound of its run, or none where it is only checked, and what is to be told of it.
#[derive(Drop)]
pub struct Row {
    pub text: Vec<u8>,
    pub depth: Option<u32>,
    pub output: Vec<u8>,
    pub closing: String,
}

/// A word of hex as bytes; `-` stands for none.
pub fn bytes_of(alloc: Global, word: &str) -> Option<Vec<u8>> {
    if word == "-" {
        return Some(Vec::new(alloc));
    }
    hex::decode(alloc, word).ok()
}

fn hex_row(alloc: Global, line: &str) -> Option<Row> {
    let (text, rest) = some!(line.split_once(' '));
    let (depth, rest) = some!(rest.split_once(' '));
    let (output, closing) = some!(rest.split_once(' '));
    Some(Row {
        text: some!(bytes_of(alloc, text)),
        depth: Some(fine!(depth.parse())),
        output: some!(bytes_of(alloc, output)),
        closing: fine!(closing.to_string(alloc)),
    })
}

fn plain_row(alloc: Global, line: &str) -> Option<Row> {
    let (depth, rest) = some!(line.split_once('\t'));
    let (text, rest) = some!(rest.split_once('\t'));
    let (output, closing) = some!(rest.split_once('\t'));
    let depth = match depth {
        "check" => None,
        _ => Some(fine!(depth.parse())),
    };
    Some(Row {
        text: fine!(text.as_bytes().to_vec(alloc)),
        depth,
        output: fine!(output.as_bytes().to_vec(alloc)),
        closing: fine!(closing.to_string(alloc)),
    })
}

/// The row of a line, if it is one.
pub fn row_of(alloc: Global, form: Form, line: &str) -> Option<Row> {
    match form {
        Form::Hex => hex_row(alloc, line),
        Form::Plain => plain_row(alloc, line),
    }
}
