//! Runs that were stopped at their bound.

ghost use Rattle.std.specs.Prelude.{◌≡◌, IfOk};
ghost use Rattle.lang_base.specs.Texts.{Appends};
ghost use Rattle.cfarm_explain.specs.Bounds.{zeros_before, three_text, grouped, groups, limit_text, depth_text};

use lang_base::NoMemory;
use std::alloc::Global;
use text_keys::{push_bytes, push_number};

/// How often a number of 64 bits can be cut.
const GROUPS: u32 = 6;

/// The zeros before a number that is written with three digits.
fn zeros_before(number: u64) -> &'static [u8]
    ensures { result.now ≡ zeros_before number }
{
    if number < 10 {
        b"00"
    } else if number < 100 {
        b"0"
    } else {
        b""
    }
}

/// Writes a number with three digits.
fn push_three(out: &mut Vec<u8>, number: u64) -> Result<(), NoMemory>
    ensures { Appends result (three_text number) out.old.items out.new.items }
{
    push_bytes(out, zeros_before(number))?;
    push_number(out, number)
}

/// Writes a number, cut into so many groups of three digits and what is left.
#[tactic(auto, using(crate::proofs::Groups::few))]
fn push_grouped(out: &mut Vec<u8>, cuts: u32, number: u64) -> Result<(), NoMemory>
    ensures { Appends result (grouped cuts number) out.old.items out.new.items }
{
    if number < 1000 {
        return push_number(out, number);
    }
    if cuts == 0 {
        return push_number(out, number);
    }
    push_grouped(out, cuts - 1, number / 1000)?;
    push_bytes(out, b",")?;
    push_three(out, number % 1000)
}

fn push_limit(out: &mut Vec<u8>, limit: u64) -> Result<(), NoMemory>
    ensures { Appends result (limit_text limit) out.old.items out.new.items }
{
    push_bytes(out, b"stopped after ")?;
    push_grouped(out, GROUPS, limit)?;
    push_bytes(
        out,
        b" instructions; --limit N allows more, --limit none all\n",
    )
}

fn push_depth(out: &mut Vec<u8>, depth: u64) -> Result<(), NoMemory>
    ensures { Appends result (depth_text depth) out.old.items out.new.items }
{
    push_bytes(out, b"stopped at ")?;
    push_grouped(out, GROUPS, depth)?;
    push_bytes(
        out,
        b" turns and calls in one another; --depth N allows more, --depth none all\n",
    )
}

/// What is told of a linked program's run that was stopped at this bound.
pub fn stopped_at_limit(alloc: Global, limit: u64) -> Result<Vec<u8>, NoMemory>
    ensures { IfOk result (λ text. text.items ≡ limit_text limit) }
{
    let mut out = Vec::new(alloc);
    push_limit(&mut out, limit)?;
    Ok(out)
}

/// What is told of a text's run that was stopped at this bound.
pub fn stopped_at_depth(alloc: Global, depth: u64) -> Result<Vec<u8>, NoMemory>
    ensures { IfOk result (λ text. text.items ≡ depth_text depth) }
{
    let mut out = Vec::new(alloc);
    push_depth(&mut out, depth)?;
    Ok(out)
}
