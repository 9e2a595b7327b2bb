//! Readers of the numbers in a function.

ghost use Rattle.std.specs.Prelude.{◌≡◌, ◌≢◌, IfOk, IfErr, Ok, Err};
ghost use Rattle.lang_base.specs.Reading.{IsRead};
ghost use Rattle.cminor_form.specs.Reading.{variable, target, frame};

use lang_base::{FormError, read_byte, read_count, read_u16, read_u16_below};
use std::alloc::Global;

/// What was read, in a box.
pub(crate) fn boxed<A: Drop>(alloc: Global, read: Result<A, FormError>) -> Result<Box<A>, FormError>
    ensures ok { IfOk result (λ b. read ≡ Ok b.value) }
    ensures err { IfErr result (λ e. e ≢ FormError.NoMemory → read ≡ Err e) }
{
    let read = read?;
    Ok(Box::new(alloc, read)?)
}

/// One of so many variables.
#[tactic(auto, unfolding(cminor_form::specs::Reading::variable))]
pub fn read_variable(variables: u16, bytes: &mut &[u8]) -> Result<u16, FormError>
    ensures { IsRead (variable variables bytes.old.now) result bytes.new.now }
{
    read_u16_below(u32::from(variables), bytes)
}

/// The variable that gets a result, if there is one.
#[tactic(auto, unfolding(cminor_form::specs::Reading::target))]
pub fn read_target(variables: u16, bytes: &mut &[u8]) -> Result<Option<u16>, FormError>
    ensures { IsRead (target variables bytes.old.now) result bytes.new.now }
{
    match read_byte(bytes)? {
        0 => Ok(None),
        1 => Ok(Some(read_variable(variables, bytes)?)),
        _ => Err(FormError::NotCanonical),
    }
}

/// The numbers of parameters and of variables, of which they are the first.
#[tactic(auto, unfolding(cminor_form::specs::Reading::frame))]
pub fn read_frame(bytes: &mut &[u8]) -> Result<(u8, u16), FormError>
    ensures { IsRead (frame bytes.old.now) result bytes.new.now }
{
    let parameters = read_count(16, bytes)?;
    let variables = read_u16(bytes)?;
    if u16::from(parameters) > variables {
        return Err(FormError::NotCanonical);
    }
    if variables > 512 {
        return Err(FormError::TooLarge);
    }
    Ok((parameters, variables))
}
