ghost use Rattle.std.specs.Prelude.{◌≡◌, ◌≢◌, ◌++◌, OnOk, IfOk, IfErr};
ghost use Rattle.std.specs.String.{string_bytes};
ghost use Rattle.ltl.specs.Function.{IsFunction};
ghost use Rattle.ltl.specs.Spelling as ltl_spelling;
ghost use Rattle.cfarm_settle.specs.Settled.{HaveSettled, IsBehindTold, IsCodeUnprinted, IsNoFunction, IsRefused, settled_text};
ghost use Rattle.std.specs.Io.KnownBytes.{Appends};

use crate::agreeing::agree;
use crate::playing::Seats;
use crate::settle_error::SettleError;
use cfarm_output::print_whole;
use lang_base::{FormError, Language, NoMemory};
use ltl::{Function, Ltl};
use std::alloc::Global;
use std::io::Write;
use std::sync::Wait;
use std::thread::Threads;

/// The one function that the bytes spell: bytes behind it are a fault.
fn read_function(alloc: Global, bytes: &[u8]) -> Result<Function, FormError>
    ensures read { IfOk result (λ function. bytes.now ≡ ltl_spelling.spelling function) }
    ensures fits { IfOk result (λ function. IsFunction function) }
    ensures refused { IfErr result (λ fault. fault ≢ FormError.NoMemory → IsNoFunction bytes.now) }
    ensures behind { IfErr result (λ fault. IsBehindTold bytes.now fault) }
{
    let (function, length) = Ltl::read(alloc, bytes)?;
    if length < bytes.len() {
        return Err(FormError::NotCanonical);
    }
    Ok(function)
}

/// What is printed of the code that is agreed on.
fn text_of(alloc: Global, code: &[u8]) -> Result<String, NoMemory>
    ensures { IfOk result (λ text. string_bytes text ≡ settled_text code.now) }
{
    let mut text = hex::encode(alloc, code)?;
    text.push_str("\nagreed 3\n")?;
    Ok(text)
}

/// Prints the code that is agreed on.
fn print_code<W: Write>(alloc: Global, code: &[u8], out: &mut W) -> Result<(), SettleError>
    ensures printed { OnOk result (Appends (W.contents out.old) (W.contents out.new) (settled_text code.now)) }
    ensures refused { IfErr result (IsCodeUnprinted code.now (W.contents out.old) (W.contents out.new)) }
{
    let text = text_of(alloc, code)?;
    match print_whole(out, text.as_bytes()) {
        Ok(()) => Ok(()),
        Err(_) => Err(SettleError::Write),
    }
}

/// Settles one LTL function: three nodes, each on a thread, agree on an order of its blocks, and the Linear code in that
/// order is written in lower case hex on one line, and then `agreed 3`, and flushed. The nodes' seats are handed back as they have met.
pub fn settle<R: Threads + Wait, W: Write>(
    rt: &R,
    alloc: Global,
    bytes: &[u8],
    out: &mut W,
) -> Result<Seats, SettleError>
    // What is printed is what the nodes of these seats have agreed on.
    ensures settled { IfOk result (λ seats. HaveSettled bytes.now seats (W.contents out.old) (W.contents out.new)) }
    // What is refused prints nothing; a writer that fails holds a beginning of the output.
    ensures refused { IfErr result (λ fault. IsRefused bytes.now fault (W.contents out.old) (W.contents out.new)) }
{
    let function = read_function(alloc, bytes)?;
    let Some((code, seats)) = agree(rt, alloc, &function)? else {
        return Err(SettleError::Undecided);
    };
    match print_code(alloc, code.as_slice(), out) {
        Ok(()) => Ok(seats),
        Err(fault) => Err(fault),
    }
}
