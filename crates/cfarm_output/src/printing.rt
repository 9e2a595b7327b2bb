//! Printing, where a writer that fails may have taken a beginning.

ghost use Rattle.std.specs.Prelude.{◌≡◌, ◌≤◌, OnOk, OnErr, IfOk, IfErr, length, take};
ghost use Rattle.std.specs.Io.KnownBytes.{Appends, Keeps};
ghost use Rattle.cfarm_output.specs.Begun.{IsBegun};
ghost use Rattle.lang_helpers.specs.declared.error.RunError.TheVariants as RunError;

use lang_helpers::{Answer, RunError, meaning};
use std::io::Write;

/// Offers the writer bytes: how many of the first were printed, none where a signal came between.
#[tactic(auto, using(crate::proofs::Pieces::none_more, crate::proofs::Pieces::none_kept))]
fn print_some<W: Write>(out: &mut W, bytes: &[u8]) -> Result<usize, RunError>
    ensures within { IfOk result (λ count. count ≤ length bytes.now) }
    ensures printed { IfOk result (λ count. Appends (W.contents out.old) (W.contents out.new) (take count bytes.now)) }
    ensures failed { OnErr result (Keeps (W.contents out.old) (W.contents out.new)) }
    ensures error { IfErr result (λ e. e ≡ RunError.Write) }
{
    let answer = out.write(bytes);
    match meaning(answer, bytes.len()) {
        Answer::Taken(count) => Ok(count),
        Answer::Interrupted => Ok(0),
        Answer::Failed => Err(RunError::Write),
    }
}

/// Prints the bytes, as many at a time as the writer takes. Where it fails a beginning of them was printed.
#[tactic(auto, using(crate::proofs::Pieces::some_more, crate::proofs::Pieces::all_printed, crate::proofs::Pieces::begun_at, crate::proofs::Pieces::begun_kept_at))]
pub fn print_all<W: Write>(out: &mut W, bytes: &[u8]) -> Result<(), RunError>
    ensures printed { OnOk result (Appends (W.contents out.old) (W.contents out.new) bytes.now) }
    ensures begun { OnErr result (IsBegun bytes.now (W.contents out.old) (W.contents out.new)) }
    ensures error { IfErr result (λ e. e ≡ RunError.Write) }
{
    let mut done: usize = 0;
    for _ in 0..u64::MAX {
        if done == bytes.len() {
            return Ok(());
        }
        match print_some(out, &bytes[done..]) {
            Ok(count) => done += count,
            Err(_) => return Err(RunError::Write),
        }
    }
    Err(RunError::Write)
}

/// Prints the bytes and flushes. Where the writer fails a beginning of them was printed.
pub fn print_whole<W: Write>(out: &mut W, bytes: &[u8]) -> Result<(), RunError>
    ensures printed { OnOk result (Appends (W.contents out.old) (W.contents out.new) bytes.now) }
    ensures begun { OnErr result (IsBegun bytes.now (W.contents out.old) (W.contents out.new)) }
    ensures error { IfErr result (λ e. e ≡ RunError.Write) }
{
    let Ok(()) = print_all(out, bytes) else {
        return Err(RunError::Write);
    };
    match out.flush() {
        Ok(()) => Ok(()),
        Err(_) => Err(RunError::Write),
    }
}
