//! What a crash makes of a write that is not synced.

ghost use Rattle.std.specs.Prelude.{◌≡◌, ◌<◌, ◌≤◌, ◌+◌, ◌^◌, length, OnOk};
ghost use Rattle.durable_model_writes.specs.Writes.{Torn, Grown};

use crate::overwriting::{lengthen, overwrite};
use rand_core::utils::NextWord;
use rand_pcg::Pcg32;
use std::alloc::AllocError;

/// Tears a write: it is lost, done, done for some of its bytes, or leaves garbage, as the words choose.
pub fn tear(
    file: &mut Vec<u8>,
    at: usize,
    bytes: &[u8],
    draws: &mut Pcg32,
) -> Result<(), AllocError>
    ensures { OnOk result (Torn at (length bytes.now) file.old.items file.new.items) }
{
    match draws.next_word() % 4 {
        0 => Ok(()),
        1 => overwrite(file, at, bytes),
        2 => garble(file, at, bytes.len(), bytes, draws),
        _ => garble(file, at, bytes.len(), &[], draws),
    }
}

/// Leaves any bytes in the range of a write; of `bytes`, as far as they go, each one is done or not.
pub fn garble(
    file: &mut Vec<u8>,
    at: usize,
    n: usize,
    bytes: &[u8],
    draws: &mut Pcg32,
) -> Result<(), AllocError>
    ensures { OnOk result (Torn at n file.old.items file.new.items) }
{
    if n == 0 {
        return Ok(());
    }
    let Some(end) = at.checked_add(n) else {
        return Err(AllocError);
    };
    let from = at.min(file.len());
    grow(file, end, draws)?;
    let to = end.min(file.len());
    for i in from..to {
        let done = i.checked_sub(at).and_then(|k| bytes.get(k)).copied();
        let byte = torn_byte(file[i], done, draws.next_word());
        file[i] = byte;
    }
    Ok(())
}

/// What a crash leaves of one byte: where it was to be `done`, that or the old one, and else any.
fn torn_byte(old: u8, done: Option<u8>, word: u32) -> u8 {
    match done {
        Some(new) if word % 2 == 0 => new,
        Some(_) => old,
        None => (word % 256) as u8,
    }
}

/// Grows the file to some length up to an end.
fn grow(file: &mut Vec<u8>, end: usize, draws: &mut Pcg32) -> Result<(), AllocError>
    ensures { OnOk result (Grown end file.old.items file.new.items) }
{
    if end <= file.len() {
        return Ok(());
    }
    let more = draws.next_word() as usize % (end - file.len()) + 1;
    let longer = file.len() + more;
    lengthen(file, longer)
}
