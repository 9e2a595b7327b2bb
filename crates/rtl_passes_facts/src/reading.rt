//! Readers of certificates: rows of facts at marked nodes.

ghost use Rattle.std.specs.Prelude.{◌≡◌, ◌≢◌, ◌≤◌, ℕ, List, ◌++◌, length, take, IfOk, IfErr};
ghost use Rattle.rtl_passes_marks.specs.declared.row.NodeRow.{NodeRow};
ghost use Rattle.rtl_passes_marks.specs.RowForm.{rows_text};
ghost use Rattle.rtl_passes_facts.specs.Certificates.{CertFits};

use crate::entries::Facts;
use crate::rules::Rules;
use lang_base::{FormError, Row};
use rtl_passes_marks::{Function, NodeRow, read_rows};
use std::alloc::Global;

/// The certificate beside this input whose spelling is a front of the bytes, and how long that is.
pub fn read_certificate<R: Rules>(
    alloc: Global,
    input: &Function,
    bytes: &[u8],
) -> Result<(Row<NodeRow<R::Fact>>, usize), FormError>
    ensures within { IfOk result (λ found. found.1 ≤ length bytes.now) }
    ensures fits { IfOk result (λ found. CertFits R.rules input.now found.0) }
    ensures front { IfOk result (λ found. take found.1 bytes.now ≡ rows_text R.text found.0) }
    ensures refused { IfErr result (λ e. e ≢ FormError.NoMemory →
        (c : List (NodeRow R.Fact)) (rest : List ℕ) → CertFits R.rules input.now c → bytes.now ≡ rows_text R.text c ++ rest → ⊥) }
{
    let nodes = input.nodes().len() as u32;
    let mut rest = bytes;
    let rows = read_rows::<Facts<R>>(alloc, input.registers(), nodes, &mut rest)?;
    Ok((Row::from_vec(rows), bytes.len() - rest.len()))
}
