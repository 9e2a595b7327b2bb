use c_checker_rules::Signature;
use c_checker_scopes::Scopes;
use std::marker::Model;

/// The signatures of the functions that are declared so far, and the functions with bodies, each with its
/// number in the order of the text.
#[derive(Drop)]
pub struct Functions {
    pub signatures: Vec<Signature>,
    pub bodies: Scopes<usize>,
}

impl Model for Functions {
    ghost use Rattle.c_checker_rules.specs.Calls.{Functions};

    ghost Value = { Functions };

    ghost view = { λ f. record { signatures = f.signatures.items; bodies = f.bodies } };
}
