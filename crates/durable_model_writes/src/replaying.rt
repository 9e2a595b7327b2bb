//! What a crash may leave of a disk that noted its calls.

ghost use Rattle.std.specs.Prelude.{◌≡◌, [], take, drop, OnOk, IfOk};
ghost use Rattle.durable_model_writes.specs.History.{size_of, noted, after, MayLeave, RedoesAll, Tears, TearsAll};

use crate::call::Call;
use crate::overwriting::overwrite;
use crate::tearing::{garble, tear};
use lang_base::NoMemory;
use rand_pcg::Pcg32;
use std::alloc::{AllocError, Global};

/// An image that a crash may leave after these calls on a disk that held `first`. The writes up to call number
/// `synced` are done; those from there on are torn.
pub fn torn_image(
    alloc: Global,
    first: &[u8],
    calls: &[Call],
    written: &[u8],
    synced: usize,
    draws: &mut Pcg32,
) -> Result<Vec<u8>, NoMemory>
    ensures { IfOk result (λ image. MayLeave (noted calls.now written.now []) first.now image.items) }
{
    let (done, loose) = calls.split_at(synced.min(calls.len()));
    let mut seen = first.to_vec(alloc)?;
    let rest = redo_all(&mut seen, done, written)?;
    let mut image = seen.to_vec(alloc)?;
    tear_all(&mut image, &mut seen, loose, rest, draws)?;
    Ok(image)
}

/// Does calls again.
fn redo_all<'a>(
    seen: &mut Vec<u8>,
    calls: &[Call],
    written: &'a [u8],
) -> Result<&'a [u8], AllocError>
    ensures { IfOk result (λ rest. RedoesAll calls.now written.now seen.old.items seen.new.items rest.now) }
{
    let mut rest = written;
    for call in calls {
        let (bytes, later) = split_at_call(*call, rest);
        redo(seen, *call, bytes)?;
        rest = later;
    }
    Ok(rest)
}

/// Tears calls.
fn tear_all(
    image: &mut Vec<u8>,
    seen: &mut Vec<u8>,
    calls: &[Call],
    written: &[u8],
    draws: &mut Pcg32,
) -> Result<(), AllocError>
    ensures { OnOk result (TearsAll calls.now written.now seen.old.items image.old.items image.new.items) }
{
    let mut rest = written;
    for call in calls {
        let (bytes, later) = split_at_call(*call, rest);
        tear_call(image, seen, *call, bytes, draws)?;
        redo(seen, *call, bytes)?;
        rest = later;
    }
    Ok(())
}

/// The bytes that a call wrote, and those that later calls wrote.
fn split_at_call(call: Call, written: &[u8]) -> (&[u8], &[u8])
    ensures bytes { result.0.now ≡ take (size_of call) written.now }
    ensures rest { result.1.now ≡ drop (size_of call) written.now }
{
    match call {
        Call::Wrote(_, n) => written.split_at(n.min(written.len())),
        _ => (&[], written),
    }
}

/// Does a call again.
fn redo(seen: &mut Vec<u8>, call: Call, bytes: &[u8]) -> Result<(), AllocError>
    ensures { OnOk result (seen.new.items ≡ after call bytes.now seen.old.items) }
{
    match call {
        Call::Wrote(at, _) => overwrite(seen, at, bytes),
        _ => Ok(()),
    }
}

/// Tears a call.
fn tear_call(
    image: &mut Vec<u8>,
    seen: &[u8],
    call: Call,
    bytes: &[u8],
    draws: &mut Pcg32,
) -> Result<(), AllocError>
    ensures { OnOk result (Tears call bytes.now seen.now image.old.items image.new.items) }
{
    match call {
        Call::Wrote(at, _) => tear(image, at, bytes, draws),
        Call::Tore(at, n) => garble(image, at, n, &[], draws),
        Call::Synced => hold(image, seen),
        Call::Left => Ok(()),
    }
}

/// Puts other bytes in the place of a file's.
fn hold(file: &mut Vec<u8>, bytes: &[u8]) -> Result<(), AllocError>
    ensures { OnOk result (file.new.items ≡ bytes.now) }
{
    file.clear();
    file.extend_from_slice(bytes)
}
