//! Writers of a bundle's parts, and of a whole one: each appends the text.

ghost use Rattle.std.specs.Prelude.{◌≡◌, ◌<◌, ◌^◌, ◌++◌, length, OnOk, OnErr};
ghost use Rattle.lang_base.specs.Texts.{Appends};
ghost use Rattle.bundle_form.specs.Form.{block_text, texts_text, bundle_text, AreShort, IsShort};

use crate::bundle::{Bundle, Texts};
use lang_base::{NoMemory, push_byte, push_u32};
use lang_helpers::{WriteOne, push_each};

/// An offer's bytes, behind their number.
fn push_block(out: &mut Vec<u8>, bytes: &[u8]) -> Result<(), NoMemory>
    requires { length bytes.now < 2 ^ 32 }
    ensures { Appends result (block_text bytes.now) out.old.items out.new.items }
{
    push_u32(out, bytes.len() as u32)?;
    out.extend_from_slice(bytes)?;
    Ok(())
}

/// Writes the four offers of a function.
struct Functions;

impl WriteOne for Functions {
    type Item = Texts;

    ghost text = { texts_text };

    ghost is_short = { AreShort };

    fn push(out: &mut Vec<u8>, item: &Texts) -> Result<(), NoMemory> {
        push_block(out, item.constants.as_slice())?;
        push_block(out, item.expressions.as_slice())?;
        push_block(out, item.allocation.as_slice())?;
        push_block(out, item.order.as_slice())
    }
}

fn push_bundle(out: &mut Vec<u8>, bundle: &Bundle) -> Result<(), NoMemory>
    requires { IsShort bundle.now }
    ensures { Appends result (bundle_text bundle.now) out.old.items out.new.items }
{
    push_byte(out, b'C')?;
    push_byte(out, b'F')?;
    push_byte(out, b'B')?;
    push_byte(out, b'1')?;
    out.extend_from_slice(bundle.digest.as_slice())?;
    push_byte(out, bundle.functions.len() as u8)?;
    push_each::<Functions>(out, bundle.functions.as_slice())
}

/// Writes a bundle's text at the end of `out`, which a refusal leaves as it was.
pub fn write(bundle: &Bundle, out: &mut Vec<u8>) -> Result<(), NoMemory>
    requires { IsShort bundle.now }
    ensures ok { OnOk result (out.new.items ≡ out.old.items ++ bundle_text bundle.now) }
    ensures err { OnErr result (out.new.items ≡ out.old.items) }
{
    let length = out.len();
    let written = push_bundle(out, bundle);
    if written.is_err() {
        out.truncate(length);
    }
    written
}
