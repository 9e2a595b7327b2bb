//! The records behind a header, up to the closed gate or to the first fault.

ghost use Rattle.std.specs.Prelude.{◌≡◌, ◌++◌, None, IfOk, IfSome, IsNone, true};
ghost use Rattle.acceptor_log_form.specs.Text.{block_text, Fits};
ghost use Rattle.cfarm_log.specs.Forms.{has_version};
ghost use Rattle.cfarm_log.specs.Fronts.{HasFront, record_had};

use crate::version::Version;
use acceptor_log::{behind_open, read_first};
use acceptor_log_form::{LogError, Record};
use lang_base::NoMemory;
use std::alloc::Global;

/// What was read, and where it ends.
#[derive(Drop)]
pub(crate) struct Front {
    pub(crate) records: Vec<Record>,
    /// Where the first gate stands, counted from the end of the header, that has no record behind it.
    pub(crate) gate: usize,
    /// Whether that is a closed gate.
    pub(crate) ends: bool,
}

/// The records of a journal of this version from its first gate on.
pub(crate) fn read_front(alloc: Global, version: Version, bytes: &[u8]) -> Result<Front, NoMemory>
    ensures { IfOk result (HasFront version bytes.now) }
{
    let mut records = Vec::new(alloc);
    let mut rest = bytes;
    while let Some(behind) = behind_open(rest) {
        match read_next(alloc, version, behind) {
            Ok(Some((entry, after))) => {
                records.push(entry)?;
                rest = after;
            }
            Ok(None) => {
                return Ok(Front {
                    records,
                    gate: bytes.len() - rest.len(),
                    ends: false,
                });
            }
            Err(NoMemory) => return Err(NoMemory),
        }
    }
    Ok(Front {
        records,
        gate: bytes.len() - rest.len(),
        ends: !rest.is_empty(),
    })
}

/// The record behind an open gate, and what stands behind it; none where the block is cut, or is no record of this version.
fn read_next(
    alloc: Global,
    version: Version,
    bytes: &[u8],
) -> Result<Option<(Record, &[u8])>, NoMemory>
    ensures text { IfOk result (λ found. IfSome found (λ x. bytes.now ≡ block_text x.0 ++ x.1.now)) }
    ensures fits { IfOk result (λ found. IfSome found (λ x. Fits x.0)) }
    ensures had { IfOk result (λ found. IfSome found (λ x. has_version version x.0 ≡ true)) }
    ensures none { IfOk result (λ found. IsNone found → record_had version bytes.now ≡ None) }
{
    match read_first(alloc, bytes) {
        Ok((entry, after)) => {
            if version.has(&entry) {
                Ok(Some((entry, after)))
            } else {
                Ok(None)
            }
        }
        Err(LogError::NoMemory) => Err(NoMemory),
        Err(_) => Ok(None),
    }
}
