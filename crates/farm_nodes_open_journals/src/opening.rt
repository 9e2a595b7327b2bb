ghost use Rattle.std.specs.Prelude.{◌≡◌, length, IfOk, IfErr};
ghost use Rattle.farm_nodes_open_journals.specs.Journals.{header_of, AreAllOpened, IsRefusedOf};

use crate::pair::open_pair;
use crate::refused::RefusedPair;
use acceptor_log::Log;
use acceptor_log_form::{Header, LogError, Record};
use durable_pair::Pair;
use paxos_core_world::quorum::Quorums;
use std::alloc::Global;

/// Whose journal it is, in a farm with these quorums.
fn header_of(quorums: Quorums, digest: &[u8; 32], node: u8) -> Header
    ensures { result ≡ header_of quorums digest.now node }
{
    Header {
        nodes: quorums.nodes(),
        promise: quorums.promise(),
        accept: quorums.accept(),
        node,
        digest: *digest,
    }
}

/// The journals of a farm's nodes on their pairs of disks, in the order of the nodes, each with its records: an old one that counts is
/// migrated, and a pair that has none gets one. The headers have the sizes of both quorums.
pub fn open_journals<P: Pair + Drop>(
    alloc: Global,
    pairs: Vec<P>,
    digest: &[u8; 32],
    quorums: Quorums,
) -> Result<Vec<(Log<P>, Vec<Record>)>, RefusedPair<P>>
    requires { length pairs.items ≡ quorums.nodes }
    ensures opened { IfOk result (λ it. AreAllOpened P.Disk P.Pair.own quorums digest.now pairs.items it.items) }
    ensures refused { IfErr result (IsRefusedOf P.Disk P.Pair.own quorums digest.now pairs.items) }
{
    let count = quorums.nodes();
    let mut behind = pairs.into_iter();
    let mut opened = match Vec::with_capacity(alloc, usize::from(count)) {
        Ok(opened) => opened,
        Err(_) => {
            return Err(RefusedPair {
                node: 0,
                fault: LogError::NoMemory,
                opened: Vec::new(alloc),
                pair: None,
                behind,
            });
        }
    };
    for node in 0..count {
        let header = header_of(quorums, digest, node);
        let Some(pair) = behind.next() else {
            unreachable!();
        };
        match open_pair(alloc, pair, &header) {
            Ok(found) => match opened.push(found) {
                Ok(()) => {}
                // There is capacity for all of them.
                Err(_) => unreachable!(),
            },
            Err((pair, fault)) => {
                return Err(RefusedPair {
                    node,
                    fault,
                    opened,
                    pair: Some(pair),
                    behind,
                });
            }
        }
    }
    Ok(opened)
}
