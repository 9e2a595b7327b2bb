//! The forms of headers, and journals read in the form that is asked for.

use acceptor_log::read;
use acceptor_log_form::{Header, LogError, Record};
use acceptor_log_old::read_old;
use std::alloc::Global;
use worked_row_files::some;

/// A header, and whether a journal of an earlier version is asked for.
#[derive(Clone, Copy)]
pub struct Asked {
    pub header: Header,
    pub is_old: bool,
}

/// The records that a journal stands for.
pub fn records_in(alloc: Global, asked: &Asked, journal: &[u8]) -> Result<Vec<Record>, LogError> {
    if asked.is_old {
        read_old(alloc, &asked.header, journal)
    } else {
        match read(alloc, &asked.header, journal) {
            Ok(found) => Ok(found.records),
            Err(fault) => Err(fault),
        }
    }
}

/// The header with this digest, of a node in a farm with quorums of these sizes.
fn header_with(sizes: [u8; 3], node: u8, rest: &[u8]) -> Option<Header> {
    let mut digest = [0u8; 32];
    if rest.len() != digest.len() {
        return None;
    }
    digest.copy_from_slice(rest);
    let [nodes, promise, accept] = sizes;
    Some(Header {
        nodes,
        promise,
        accept,
        node,
        digest,
    })
}

/// The header that these bytes are, in any form.
pub fn asked_of(bytes: &[u8]) -> Option<Asked> {
    let (header, is_old) = match bytes {
        [b'C', b'F', b'J', b'1', nodes, node, rest @ ..] => {
            let half = nodes / 2 + 1;
            (some!(header_with([*nodes, half, half], *node, rest)), true)
        }
        [
            b'C',
            b'F',
            b'J',
            form,
            nodes,
            promise,
            accept,
            node,
            rest @ ..,
        ] => {
            let header = some!(header_with([*nodes, *promise, *accept], *node, rest));
            (header, *form == b'F')
        }
        _ => return None,
    };
    Some(Asked { header, is_old })
}
