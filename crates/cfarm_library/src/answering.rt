//! An answer as C sees it.

ghost use Rattle.std.specs.Prelude.{◌≡◌};

use cfarm_library_answers::Answer;

/// What a call answers beside its status.
#[repr(C)]
#[derive(Drop)]
pub struct CfarmAnswer {
    /// What the command writes, and behind that what it tells. They stay until they are given back.
    pub bytes: &'static [u8],
    /// How many of the bytes it writes.
    pub written: usize,
}

/// The longest input; a type holds none that is longer, but a caller that nobody checks may say so.
const LONGEST: usize = 0x7FFF_FFFF_FFFF_FFFF;

pub(crate) fn is_long(bytes: &[u8]) -> bool {
    bytes.len() > LONGEST
}

/// The bytes that C passes. Where there are none their pointer may be null, so nothing looks at it.
pub(crate) fn passed(bytes: &[u8]) -> &[u8]
    ensures { result.now ≡ bytes.now }
{
    if bytes.is_empty() {
        return &[];
    }
    bytes
}

/// The bytes, which nobody drops. Where there are none, no memory is kept.
fn lasting(bytes: Vec<u8>) -> &'static [u8]
    ensures { result.now ≡ bytes.items }
{
    if bytes.is_empty() {
        return &[];
    }
    bytes.leak()
}

/// Puts an answer where the caller finds it, and gives its status.
pub(crate) fn put(found: Answer, answer: &mut CfarmAnswer) -> u32
    ensures bytes { answer.new.bytes.now ≡ found.bytes.items }
    ensures written { answer.new.written ≡ found.written }
    ensures status { result ≡ found.status }
{
    let Answer {
        status,
        bytes,
        written,
    } = found;
    answer.bytes = lasting(bytes);
    answer.written = written;
    u32::from(status)
}
