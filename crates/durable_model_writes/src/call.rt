//! What a disk in memory notes of a call.

ghost use Rattle.std.specs.Prelude.{◌≡◌, ◌<◌, ◌≤◌, ◌+◌, ◌++◌, [], ◌∷◌, length, vec_len, vec_capacity};

/// What a disk in memory notes of a call: where a write began and how many bytes it had. The bytes stand apart.
#[derive(Clone, Copy)]
pub enum Call {
    /// A write that was done.
    Wrote(usize, usize),
    /// A write that failed, which may have torn its range.
    Tore(usize, usize),
    /// A sync that was done.
    Synced,
    /// A read, or a sync that failed: the disk is as it was.
    Left,
}

/// Notes a call where the capacity suffices.
pub fn note(calls: &mut Vec<Call>, call: Call)
    requires { vec_len calls.old < vec_capacity calls.old }
    ensures noted { calls.new.items ≡ calls.old.items ++ call ∷ [] }
    ensures capacity { vec_capacity calls.old ≤ vec_capacity calls.new }
{
    let _ = calls.push(call);
}

/// Keeps the bytes of a write where the capacity suffices.
pub fn keep(written: &mut Vec<u8>, bytes: &[u8])
    requires { vec_len written.old + length bytes.now ≤ vec_capacity written.old }
    ensures kept { written.new.items ≡ written.old.items ++ bytes.now }
    ensures capacity { vec_capacity written.old ≤ vec_capacity written.new }
{
    let _ = written.extend_from_slice(bytes);
}
