//! What an equation behind an instruction demands of those before it.

ghost use Rattle.std.specs.Prelude.{◌≡◌};
ghost use Rattle.alloc_check_rules.specs.Equations.{through_result, through, is_lost, over_call, through_body};

use crate::origins::is_at;
use alloc_check_rules::{Body, Change, Demand, Equation, Register};
use locations::Location;

fn through_result(register: Register, location: Location, equation: Equation) -> Demand
    ensures { result ≡ through_result register location equation }
{
    if register == equation.register {
        if is_at(&location, &equation.location) {
            Demand::Met
        } else {
            Demand::Refused
        }
    } else if is_at(&location, &equation.location) {
        Demand::Refused
    } else {
        Demand::Needs(equation)
    }
}

fn through(change: Change, equation: Equation) -> Demand
    ensures { result ≡ through change equation }
{
    match change {
        Change::Nothing => Demand::Needs(equation),
        Change::Defines { register, location } => through_result(register, location, equation),
        Change::Drops { register } => {
            if register == equation.register {
                Demand::Refused
            } else {
                Demand::Needs(equation)
            }
        }
        Change::Copies { target, source } => {
            if target == equation.register {
                Demand::Needs(Equation {
                    register: source,
                    location: equation.location,
                })
            } else {
                Demand::Needs(equation)
            }
        }
    }
}

fn is_lost(location: &Location) -> bool
    ensures { result ≡ is_lost location.now }
{
    match location {
        Location::InRegister(register) => *register < 4,
        Location::InSlot(_) => false,
    }
}

fn over_call(demand: Demand) -> Demand
    ensures { result ≡ over_call demand }
{
    match demand {
        Demand::Met => Demand::Met,
        Demand::Refused => Demand::Refused,
        Demand::Needs(equation) => {
            if is_lost(&equation.location) {
                Demand::Refused
            } else {
                Demand::Needs(equation)
            }
        }
    }
}

/// What an equation behind a body's instruction demands in front of that.
pub(crate) fn through_body(body: &Body, change: Change, equation: Equation) -> Demand
    ensures { result ≡ through_body body.now change equation }
{
    match body {
        Body::Call { .. } => over_call(through(change, equation)),
        _ => through(change, equation),
    }
}
