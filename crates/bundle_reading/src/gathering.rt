//! What was found of all functions, in order, beside what was answered of it.

ghost use Rattle.std.specs.Prelude.{◌≡◌, ◌≢◌, ℕ, length, map, IfOk, IfErr};
ghost use Rattle.bundle_reading.specs.Texts.{HaveNoOffers};
ghost use Rattle.bundle_reading.specs.Read.{AreFound, AreGathered, AreRead, four_in};

use crate::four::Four;
use bundle_form::Texts;
use lang_base::FormError;
use std::alloc::Global;

/// Places for what is found of so many functions and what is answered of it.
pub fn places_for<T: Drop>(
    alloc: Global,
    count: usize,
) -> Result<Vec<Result<(Four, T), FormError>>, FormError>
    ensures many { IfOk result (λ found. length found.items ≡ count) }
    ensures refused { IfErr result (λ e. e ≡ FormError.NoMemory) }
{
    let mut found = Vec::with_capacity(alloc, count)?;
    for _ in 0..count {
        found.push(Err(FormError::NoMemory))?;
    }
    Ok(found)
}

/// What was found of all functions and what was answered of it, or the first fault of form.
pub fn gathered<T: Drop>(
    alloc: Global,
    functions: &[Texts],
    found: Vec<Result<(Four, T), FormError>>,
) -> Result<(Vec<Four>, Vec<T>), FormError>
    requires { AreFound functions.now (map four_in found.items) }
    ensures ok { IfOk result (λ all. AreRead functions.now all.0.items) }
    ensures told { IfOk result (λ all. AreGathered found.items all.0.items all.1.items) }
    ensures refused { IfErr result (λ e. e ≢ FormError.NoMemory → HaveNoOffers functions.now) }
{
    let mut fours = Vec::with_capacity(alloc, functions.len())?;
    let mut told = Vec::with_capacity(alloc, functions.len())?;
    for one in found {
        match one {
            Ok((four, answer)) => {
                fours.push(four)?;
                told.push(answer)?;
            }
            Err(fault) => return Err(fault),
        }
    }
    Ok((fours, told))
}
