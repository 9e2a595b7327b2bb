//! Declarations of locals (C99 6.2.1 and 6.7).

ghost use Rattle.std.specs.Prelude.{◌≡◌, [], OnOk, IfOk, IfErr};
ghost use Rattle.c_checker_rules.specs.Told.{Tells};
ghost use Rattle.c_checker_rules.specs.Locals as L;

use crate::here::Here;
use c_checker_rules::{CheckError, Meaning};
use c_checker_terms::{is_new, is_short};
use c_syntax::{Identifier, IntegerType};
use lang_helpers::ok;

/// The most locals of a function, parameters among them.
const MOST_LOCALS: usize = 256;

/// Whether a local may be declared here.
fn check_local(depth: u32, here: &Here, name: &Identifier) -> Result<(), CheckError>
    ensures ok { OnOk result (L.local_faults depth here.now name.now ≡ []) }
    ensures err { IfErr result (λ e. Tells e (L.local_faults depth here.now name.now)) }
{
    if !is_new(depth, &here.scope, name) {
        return Err(CheckError::Redeclared(name.offset));
    }
    if here.locals >= MOST_LOCALS || !is_short(name) {
        return Err(CheckError::Limit(name.offset));
    }
    Ok(())
}

/// Declares a local, which takes the next number.
pub fn declare_local(
    depth: u32,
    here: &mut Here,
    kind: IntegerType,
    name: &Identifier,
) -> Result<usize, CheckError>
    ensures ok { OnOk result (L.local_faults depth here.old name.now ≡ []) }
    ensures number { IfOk result (λ n. n ≡ here.old.locals) }
    ensures here { OnOk result (here.new ≡ L.with_local depth here.old kind name.now) }
    ensures err { IfErr result (λ e. Tells e (L.local_faults depth here.old name.now)) }
{
    ok!(check_local(depth, here, name));
    let number = here.locals;
    let meaning = Meaning::Local(number, kind);
    here.scope.bind(name.name.as_slice(), depth, meaning)?;
    here.locals = number + 1;
    Ok(number)
}
