ghost use Rattle.std.specs.Prelude.{ℕ, ◌<◌, slice_index};

/// Each number of a slice of bytes is a byte: a fact of its type, for proofs that do not see it where the slice is lent
/// to be moved on.
pub fn are_bytes(bytes: &[u8])
    ensures { (i : ℕ) → slice_index bytes.now i < 256 }
{}
