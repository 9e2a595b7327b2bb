//! The header that the first bytes of a journal are.

ghost use Rattle.std.specs.Prelude.{◌≡◌, ◌≤◌, ◌++◌, ◌∷◌, [], length, take, IfOk, IfErr};
ghost use Rattle.acceptor_log_form.specs.Fault.{magic};
ghost use Rattle.acceptor_log_old.specs.OldFault.{first_magic, second_magic};
ghost use Rattle.cfarm_log.specs.Heads.{HasNoHead, IsHead};

use crate::version::Version;
use acceptor_log::begins_with;
use acceptor_log_form::Header;
use acceptor_log_old::{belongs_to_first, even_nodes};

/// A journal's header, and what stands behind it.
#[derive(Clone, Copy)]
pub(crate) struct Head<'a> {
    pub(crate) version: Version,
    pub(crate) header: Header,
    pub(crate) behind: &'a [u8],
}

/// Why bytes have no header.
#[derive(Clone, Copy, Debug, PartialEq, Eq)]
pub(crate) enum HeadFault {
    /// They are of no form of a journal.
    NotAJournal,
    /// They are of the first form, with an even number of nodes: so they are no journal of any source.
    EvenNodes,
}

/// The header, of whichever form.
pub(crate) fn head_of(bytes: &[u8]) -> Result<Head<'_>, HeadFault>
    ensures head { IfOk result (λ head. IsHead head.version head.header bytes.now head.behind.now) }
    ensures refused { IfErr result (HasNoHead bytes.now) }
{
    if begins_with(bytes, b'2') {
        new_head(bytes)
    } else if begins_with(bytes, b'1') {
        first_head(bytes)
    } else if begins_with(bytes, b'F') {
        second_head(bytes)
    } else {
        Err(HeadFault::NotAJournal)
    }
}

/// Of the form that is written.
fn new_head(bytes: &[u8]) -> Result<Head<'_>, HeadFault>
    requires { take 4 bytes.now ≡ magic }
    ensures head { IfOk result (λ head. IsHead head.version head.header bytes.now head.behind.now) }
    ensures refused { IfErr result (HasNoHead bytes.now) }
{
    let [_, _, _, _, nodes, promise, accept, node, rest @ ..] = bytes else {
        return Err(HeadFault::NotAJournal);
    };
    if rest.len() < 33 {
        return Err(HeadFault::NotAJournal);
    }
    let (digest, behind) = digest_in(rest);
    let header = Header {
        nodes: *nodes,
        promise: *promise,
        accept: *accept,
        node: *node,
        digest,
    };
    Ok(Head {
        version: Version::New,
        header,
        behind,
    })
}

/// Of the first form, whose quorums are both of half of the nodes, rounded up.
fn first_head(bytes: &[u8]) -> Result<Head<'_>, HeadFault>
    requires { take 4 bytes.now ≡ first_magic }
    ensures head { IfOk result (λ head. IsHead head.version head.header bytes.now head.behind.now) }
    ensures refused { IfErr result (HasNoHead bytes.now) }
{
    even_nodes();
    let [_, _, _, _, nodes, node, rest @ ..] = bytes else {
        return Err(HeadFault::NotAJournal);
    };
    if rest.len() < 33 {
        return Err(HeadFault::NotAJournal);
    }
    if *nodes % 2 == 0 {
        return Err(HeadFault::EvenNodes);
    }
    let half = *nodes / 2 + 1;
    let (digest, behind) = digest_in(rest);
    let header = Header {
        nodes: *nodes,
        promise: half,
        accept: half,
        node: *node,
        digest,
    };
    Ok(Head {
        version: Version::Old,
        header,
        behind,
    })
}

/// Of the second form, whose quorums are others.
fn second_head(bytes: &[u8]) -> Result<Head<'_>, HeadFault>
    requires { take 4 bytes.now ≡ second_magic }
    ensures head { IfOk result (λ head. IsHead head.version head.header bytes.now head.behind.now) }
    ensures refused { IfErr result (HasNoHead bytes.now) }
{
    let [_, _, _, _, nodes, promise, accept, node, rest @ ..] = bytes else {
        return Err(HeadFault::NotAJournal);
    };
    if rest.len() < 33 || belongs_to_first(*nodes, *promise, *accept) {
        return Err(HeadFault::NotAJournal);
    }
    let (digest, behind) = digest_in(rest);
    let header = Header {
        nodes: *nodes,
        promise: *promise,
        accept: *accept,
        node: *node,
        digest,
    };
    Ok(Head {
        version: Version::Old,
        header,
        behind,
    })
}

/// The digest, and what stands behind it.
fn digest_in(bytes: &[u8]) -> ([u8; 32], &[u8])
    requires { 32 ≤ length bytes.now }
    ensures text { bytes.now ≡ result.0 ++ result.1.now }
    ensures size { length result.0 ≡ 32 }
{
    let (front, behind) = bytes.split_at(32);
    let mut digest = [0u8; 32];
    digest.copy_from_slice(front);
    (digest, behind)
}
