//! Readers of a bundle's parts, and of a whole one. Each says the value and the bytes behind it, or the first fault.

ghost use Rattle.std.specs.Prelude.{◌≡◌, ◌≢◌, [], IfOk, IfErr};
ghost use Rattle.lang_base.specs.Reading.{Reads, byte, more};
ghost use Rattle.bundle_form.specs.Form.{bundle_text, IsBundle};
ghost use Rattle.bundle_form.specs.Reading.{block, texts, functions, body, bundle, whole, Tells};
ghost use Rattle.bundle_form.specs.declared.bundle.Bundle.{Bundle};

use crate::bundle::{Bundle, Texts};
use lang_base::{FormError, Row, read_byte, read_count, read_u32};
use lang_helpers::{Byte, ReadOne, are_bytes, read_so_many};
use std::alloc::Global;

/// So many bytes, in one copy. Where fewer are there, nothing is copied.
fn read_bytes(alloc: Global, count: u32, bytes: &mut &[u8]) -> Result<Row<u8>, FormError>
    ensures { Reads (more (λ before. byte) [] count bytes.old.now) result bytes.new.now }
{
    let count = count as usize;
    if bytes.len() < count {
        return Err(FormError::Short);
    }
    let (block, behind) = bytes.split_at(count);
    let block = Vec::from_slice(alloc, block)?;
    *bytes = behind;
    Ok(Row::from_vec(block))
}

/// An offer's bytes, behind their number.
fn read_block(alloc: Global, bytes: &mut &[u8]) -> Result<Row<u8>, FormError>
    ensures { Reads (block bytes.old.now) result bytes.new.now }
{
    let count = read_u32(bytes)?;
    read_bytes(alloc, count, bytes)
}

/// The four offers of a function.
#[tactic(auto, unfolding(crate::specs::Reading::texts))]
fn read_texts(alloc: Global, bytes: &mut &[u8]) -> Result<Texts, FormError>
    ensures { Reads (texts bytes.old.now) result bytes.new.now }
{
    let constants = read_block(alloc, bytes)?;
    let expressions = read_block(alloc, bytes)?;
    let allocation = read_block(alloc, bytes)?;
    let order = read_block(alloc, bytes)?;
    Ok(Texts {
        constants,
        expressions,
        allocation,
        order,
    })
}

/// Reads the offers of a function.
#[derive(Drop)]
struct Functions;

impl ReadOne for Functions {
    type Item = Texts;

    ghost part = { λ _ _. texts };

    fn read(
        &mut self,
        alloc: Global,
        _before: &[Texts],
        bytes: &mut &[u8],
    ) -> Result<Texts, FormError> {
        read_texts(alloc, bytes)
    }
}

/// The offers of all functions, behind their number.
#[tactic(auto, unfolding(crate::specs::Reading::functions))]
fn read_functions(alloc: Global, bytes: &mut &[u8]) -> Result<Row<Texts>, FormError>
    ensures { Reads (functions bytes.old.now) result bytes.new.now }
{
    let count = read_count(64, bytes)?;
    let functions = read_so_many(alloc, Functions, u32::from(count), bytes)?;
    Ok(Row::from_vec(functions))
}

/// The digest, and the functions.
#[tactic(auto, unfolding(crate::specs::Reading::body))]
fn read_body(alloc: Global, bytes: &mut &[u8]) -> Result<Bundle, FormError>
    ensures { Reads (body bytes.old.now) result bytes.new.now }
{
    let digest = read_so_many(alloc, Byte, 32, bytes)?;
    let functions = read_functions(alloc, bytes)?;
    Ok(Bundle {
        digest: Row::from_vec(digest),
        functions,
    })
}

/// The same, behind the four bytes of every bundle.
#[tactic(auto, unfolding(crate::specs::Reading::bundle))]
fn read_bundle(alloc: Global, bytes: &mut &[u8]) -> Result<Bundle, FormError>
    ensures { Reads (bundle bytes.old.now) result bytes.new.now }
{
    if read_byte(bytes)? != b'C' {
        return Err(FormError::BadTag);
    }
    if read_byte(bytes)? != b'F' {
        return Err(FormError::BadTag);
    }
    if read_byte(bytes)? != b'B' {
        return Err(FormError::BadTag);
    }
    if read_byte(bytes)? != b'1' {
        return Err(FormError::BadTag);
    }
    read_body(alloc, bytes)
}

/// The bundle that all of the bytes spell, or the first fault in byte order. The offers' own forms are not looked at. The time is
/// linear in the bytes.
pub fn read(alloc: Global, bytes: &[u8]) -> Result<Bundle, FormError>
    ensures fits { IfOk result IsBundle }
    ensures spelled { IfOk result (λ b. bytes.now ≡ bundle_text b) }

    // Bytes are refused only where no bundle is spelled so, by the first fault.
    ensures refused { IfErr result (λ e. e ≢ FormError.NoMemory → (b : Bundle) → IsBundle b → bytes.now ≢ bundle_text b) }
    ensures first { Tells (whole bundle bytes.now) result }
{
    are_bytes(bytes);
    let mut rest = bytes;
    let found = read_bundle(alloc, &mut rest)?;
    if !rest.is_empty() {
        return Err(FormError::NotCanonical);
    }
    Ok(found)
}
