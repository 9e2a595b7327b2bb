//! Writers of certificates.

ghost use Rattle.std.specs.Prelude.{◌≡◌, ◌++◌, OnOk, OnErr};
ghost use Rattle.rtl_passes_marks.specs.RowForm.{rows_text};
ghost use Rattle.rtl_passes_facts.specs.Certificates.{CertFits};

use crate::entries::Facts;
use crate::rules::Rules;
use lang_base::NoMemory;
use rtl_passes_marks::{Function, NodeRow, write_rows};

/// Writes the rows beside this input at the end of `out`, which a refusal leaves as it was.
pub fn write_certificate<R: Rules>(
    _input: &Function,
    rows: &[NodeRow<R::Fact>],
    out: &mut Vec<u8>,
) -> Result<(), NoMemory>
    requires { CertFits R.rules _input.now rows.now }
    ensures ok { OnOk result (out.new.items ≡ out.old.items ++ rows_text R.text rows.now) }
    ensures err { OnErr result (out.new.items ≡ out.old.items) }
{
    write_rows::<Facts<R>>(rows, out)
}
