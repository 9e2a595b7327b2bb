ghost use Rattle.std.specs.Prelude.{◌≡◌, IfOk};
ghost use Rattle.std.specs.String.{string_bytes};
ghost use Rattle.sha2.specs.Sha256.{sha256};
ghost use Rattle.serde_json.specs.View.{view};
ghost use Rattle.serde_json.specs.Written.{compact_text};
ghost use Rattle.cfarm_build_result.specs.Report.{report_of};

use crate::entries::entries;
use crate::function::FunctionRooms;
use serde_json::{Value, json};
use sha2::{Digest, Sha256};
use std::alloc::{AllocError, Global};

/// What is reported of these functions, of the bytes that were linked, and of so many nodes.
fn value_of(
    alloc: Global,
    functions: &[FunctionRooms],
    linked: &[u8],
    nodes: usize,
) -> Result<Value, AllocError>
    ensures { IfOk result (λ value. view value ≡ report_of functions.now (sha256 linked.now) nodes) }
{
    let entries = Value::Array(entries(alloc, functions)?);
    let digest = Sha256::digest(linked);
    let digits = hex::encode(alloc, digest.as_slice())?;
    json!(in alloc; {"functions": entries, "linked": digits, "nodes": nodes})
}

/// The report of a build with so many nodes that linked these bytes, of its functions in the order of the program: one line,
/// without the end of the line. The digest is the SHA-256 of the bytes, in lower case hex.
pub fn report(
    alloc: Global,
    functions: &[FunctionRooms],
    linked: &[u8],
    nodes: usize,
) -> Result<String, AllocError>
    ensures { IfOk result (λ text.
        string_bytes text ≡ compact_text (report_of functions.now (sha256 linked.now) nodes)) }
{
    let value = value_of(alloc, functions, linked, nodes)?;
    value.to_string(alloc)
}
