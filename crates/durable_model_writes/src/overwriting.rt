//! A write over bytes in memory.

ghost use Rattle.std.specs.Prelude.{◌≡◌, ◌≤◌, ◌+◌, ◌-◌, ◌++◌, length, take, drop, replicate, vec_len, OnOk, OnErr};
ghost use Rattle.durable_model_writes.specs.Writes.{overwritten, Lengthens};

use std::alloc::AllocError;

/// Writes over the bytes from `at` on. Only a write past the end takes memory, and it fails with nothing written.
pub fn overwrite(file: &mut Vec<u8>, at: usize, bytes: &[u8]) -> Result<(), AllocError>
    ensures ok { OnOk result (file.new.items ≡ overwritten file.old.items at bytes.now) }
    ensures err { OnErr result (file.new.items ≡ file.old.items) }
    ensures memory { OnErr result (Lengthens at (length bytes.now) file.old.items) }
{
    if bytes.is_empty() {
        return Ok(());
    }
    let Some(end) = at.checked_add(bytes.len()) else {
        return Err(AllocError);
    };
    if end <= file.len() {
        put(file, at, bytes);
        return Ok(());
    }
    lengthen(file, end)?;
    put(file, at, bytes);
    Ok(())
}

/// Fills up with zeros to a length.
pub fn lengthen(file: &mut Vec<u8>, end: usize) -> Result<(), AllocError>
    requires { vec_len file.old ≤ end }
    ensures ok { OnOk result (file.new.items ≡ file.old.items ++ replicate (end - length file.old.items) 0) }
    ensures err { OnErr result (file.new.items ≡ file.old.items) }
{
    file.resize(end, 0)
}

fn put(file: &mut Vec<u8>, at: usize, bytes: &[u8])
    requires { at + length bytes.now ≤ vec_len file.old }
    ensures { file.new.items ≡ take at file.old.items ++ bytes.now ++ drop (at + length bytes.now) file.old.items }
{
    file[at..at + bytes.len()].copy_from_slice(bytes);
}
