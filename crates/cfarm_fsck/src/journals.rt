//! The journals of all nodes.

ghost use Rattle.std.specs.Prelude.{◌≡◌, length, IfOk, IfErr};
ghost use Rattle.farm_nodes_open_journals.specs.Journals.{header_of};
ghost use Rattle.cfarm_fsck.specs.Folder.{AreJournalsIn, IsNoOther, IsOfRefusedFile};

use acceptor_log_form::{Header, Record};
use cfarm_fsck_journals::{NodeFiles, journal_of};
use farm_nodes_open_seats::OpenFault;
use paxos_core_world::quorum::Quorums;
use std::alloc::Global;

/// Whose journal it is, in a farm with these quorums.
fn header_of(quorums: Quorums, digest: &[u8; 32], node: u8) -> Header
    ensures { result ≡ header_of quorums digest.now node }
{
    Header {
        nodes: quorums.nodes(),
        promise: quorums.promise(),
        accept: quorums.accept(),
        node,
        digest: *digest,
    }
}

/// How many bytes each journal has and its records, in the order of the nodes. The first that is refused is told.
pub(crate) fn journals_of(
    alloc: Global,
    digest: &[u8; 32],
    quorums: Quorums,
    files: &[NodeFiles],
) -> Result<Vec<(usize, Vec<Record>)>, OpenFault>
    requires { length files.now ≡ quorums.nodes }
    ensures listed { IfOk result (λ found. AreJournalsIn quorums digest.now files.now found.items) }
    ensures refused { IfErr result (IsOfRefusedFile quorums digest.now files.now) }
    ensures others { IfErr result IsNoOther }
{
    let count = quorums.nodes();
    let mut journals = Vec::new(alloc);
    for node in 0..count {
        let header = header_of(quorums, digest, node);
        match journal_of(alloc, &header, &files[usize::from(node)]) {
            Ok(found) => match journals.push(found) {
                Ok(()) => {}
                Err(_) => return Err(OpenFault::NoMemory),
            },
            Err(fault) => return Err(OpenFault::of_journal(node, fault)),
        }
    }
    Ok(journals)
}
