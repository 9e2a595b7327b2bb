//! In what a journal's header differs from the one that a build asks for.

use cfarm_files::Files;
use cfarm_options::{AskedSizes, BuildOptions, journal_path, old_journal_path};
use sha2::{Digest, Sha256};
use std::alloc::Global;

/// How many bytes a digest has.
const DIGEST: usize = 32;

/// The header of a journal.
#[derive(Clone, Copy, Debug)]
struct Header<'a> {
    sizes: AskedSizes,
    node: u8,
    digest: &'a [u8],
}

/// The header that the bytes of a journal begin with, of whatever form; none where they begin otherwise.
fn header_of(bytes: &[u8]) -> Option<Header<'_>> {
    match bytes {
        [
            b'C',
            b'F',
            b'J',
            b'2' | b'F',
            nodes,
            promise,
            accept,
            node,
            rest @ ..,
        ] => Some(Header {
            sizes: AskedSizes {
                nodes: *nodes,
                promise: *promise,
                accept: *accept,
            },
            node: *node,
            digest: rest.get(..DIGEST)?,
        }),
        [b'C', b'F', b'J', b'1', nodes, node, rest @ ..] => Some(Header {
            sizes: AskedSizes {
                nodes: *nodes,
                promise: *nodes / 2 + 1,
                accept: *nodes / 2 + 1,
            },
            node: *node,
            digest: rest.get(..DIGEST)?,
        }),
        _ => None,
    }
}

/// In what the header is another; nothing where it is none of these.
fn difference(header: &Header<'_>, sizes: AskedSizes, node: u8, digest: &[u8]) -> &'static str {
    if header.digest != digest {
        "that journal is of another text"
    } else if header.sizes.nodes != sizes.nodes {
        "that journal is of another number of nodes (--nodes)"
    } else if header.sizes != sizes {
        "that journal is of quorums of other sizes (--promise, --accept)"
    } else if header.node != node {
        "that journal is of another node"
    } else {
        ""
    }
}

/// In what the journal of this path is another; nothing where that is not known.
fn difference_at<F: Files>(
    files: &F,
    path: &str,
    sizes: AskedSizes,
    node: u8,
    digest: &[u8],
) -> &'static str {
    let Ok(bytes) = files.read(path) else {
        return "";
    };
    match header_of(&bytes) {
        Some(header) => difference(&header, sizes, node, digest),
        None => "",
    }
}

/// In what the journal of the node of this number is that of another build than of this text; nothing where that is not known.
pub fn difference_of<F: Files>(
    alloc: Global,
    options: BuildOptions<'_>,
    text: &[u8],
    node: u8,
    files: &F,
) -> &'static str {
    let digest = Sha256::digest(text);
    let digest = digest.as_slice();
    let sizes = options.sizes();
    let number = usize::from(node);
    let Ok(path) = journal_path(alloc, options.folder, number) else {
        return "";
    };
    let told = difference_at(files, path.as_str(), sizes, node, digest);
    if !told.is_empty() {
        return told;
    }
    let Ok(path) = old_journal_path(alloc, options.folder, number) else {
        return "";
    };
    difference_at(files, path.as_str(), sizes, node, digest)
}
