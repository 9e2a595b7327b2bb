//! The journal of one node, as opening reads it.

ghost use Rattle.std.specs.Prelude.{◌≢◌, ◌<◌, [], IfOk, IfErr, MatchBool};
ghost use Rattle.durable_pair.specs.Images.{IsSpent};
ghost use Rattle.acceptor_log_form.specs.Text.{StandsFor};
ghost use Rattle.acceptor_log_form.specs.Fault.{HasFault};
ghost use Rattle.acceptor_log_form.specs.declared.errors.LogError.TheVariants.{NoMemory};
ghost use Rattle.acceptor_log_migrating.specs.Stands.{IsNotMigrated};
ghost use Rattle.cfarm_fsck_journals.specs.Listed.{AreListedIn, AreRefusedIn, HasSize, IsSizeOf, WereMigrated};

use crate::files::NodeFiles;
use acceptor_log::{Listed, read};
use acceptor_log_form::{Header, LogError, Record, one_list, text_stands};
use acceptor_log_translating::translate;
use std::alloc::Global;

/// Whether the bytes of an old journal count: their first is `C`.
fn counts(bytes: &[u8]) -> bool
    ensures { MatchBool result (IsSpent bytes.now → ⊥) (IsSpent bytes.now) }
{
    match bytes {
        [] => false,
        [first, _rest @ ..] => *first == b'C',
    }
}

/// The size and the records of a journal that counts as it is.
fn new_journal(
    alloc: Global,
    header: &Header,
    bytes: &[u8],
) -> Result<(usize, Vec<Record>), LogError>
    ensures stands { IfOk result (λ found. StandsFor header.now found.1.items bytes.now) }
    ensures size { IfOk result (λ found. IsSizeOf found.1.items found.0) }
    ensures refused { IfErr result (λ e. e ≢ LogError.NoMemory → HasFault header.now bytes.now e) }
{
    match read(alloc, header, bytes) {
        Ok(found) => {
            let Listed { records, gate } = found;
            let size = gate + 1;
            Ok((size, records))
        }
        Err(fault) => Err(fault),
    }
}

/// Those of the journal that migration would make of an old one.
fn old_journal(
    alloc: Global,
    header: &Header,
    bytes: &[u8],
) -> Result<(usize, Vec<Record>), LogError>
    requires { 0 < header.now.nodes }
    ensures migrated { IfOk result (λ found. WereMigrated header.now bytes.now found.1.items) }
    ensures size { IfOk result (λ found. IsSizeOf found.1.items found.0) }
    ensures refused { IfErr result (λ e. e ≢ LogError.NoMemory → IsNotMigrated header.now bytes.now e) }
{
    text_stands();
    one_list();
    let text = match translate(alloc, header, bytes) {
        Ok(text) => text,
        Err(fault) => return Err(fault),
    };
    match new_journal(alloc, header, &text.bytes) {
        Ok(found) => Ok(found),
        Err(_) => Err(LogError::NoMemory),
    }
}

/// Those of the files of a node whose old one does not count.
fn later_journal(
    alloc: Global,
    header: &Header,
    new: &[u8],
    old: &[u8],
) -> Result<(usize, Vec<Record>), LogError>
    requires { IsSpent old.now }
    ensures listed { IfOk result (λ found. AreListedIn header.now new.now old.now found.1.items) }
    ensures size { IfOk result (λ found. HasSize new.now old.now found.1.items found.0) }
    ensures refused { IfErr result (λ e. e ≢ LogError.NoMemory → AreRefusedIn header.now new.now old.now e) }
{
    if new.is_empty() && old.is_empty() {
        return Ok((0, Vec::new(alloc)));
    }
    match new_journal(alloc, header, new) {
        Ok(found) => Ok(found),
        Err(fault) => Err(fault),
    }
}

/// Those of the two files of a node.
fn journal_in(
    alloc: Global,
    header: &Header,
    new: &[u8],
    old: &[u8],
) -> Result<(usize, Vec<Record>), LogError>
    requires { 0 < header.now.nodes }
    ensures listed { IfOk result (λ found. AreListedIn header.now new.now old.now found.1.items) }
    ensures size { IfOk result (λ found. HasSize new.now old.now found.1.items found.0) }
    ensures refused { IfErr result (λ e. e ≢ LogError.NoMemory → AreRefusedIn header.now new.now old.now e) }
{
    if !counts(old) {
        return later_journal(alloc, header, new, old);
    }
    match old_journal(alloc, header, old) {
        Ok(found) => Ok(found),
        Err(fault) => Err(fault),
    }
}

/// How many bytes the journal of a node has and its records, as opening lists them: of an old one that counts those of the journal that
/// migration would make of it, and none where neither file has bytes.
pub fn journal_of(
    alloc: Global,
    header: &Header,
    files: &NodeFiles,
) -> Result<(usize, Vec<Record>), LogError>
    requires { 0 < header.now.nodes }
    ensures listed { IfOk result (λ found. AreListedIn header.now files.now.new.items files.now.old.items found.1.items) }
    ensures size { IfOk result (λ found. HasSize files.now.new.items files.now.old.items found.1.items found.0) }
    ensures refused { IfErr result (λ e. e ≢ NoMemory
        → AreRefusedIn header.now files.now.new.items files.now.old.items e) }
{
    journal_in(alloc, header, &files.new, &files.old)
}
