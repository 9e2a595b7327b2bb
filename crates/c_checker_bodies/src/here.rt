use c_checker_rules::Meaning;
use c_checker_scopes::Scopes;
use std::marker::Model;

/// The names that are declared where a statement stands, and how many locals its function has so far.
#[derive(Drop)]
pub struct Here {
    pub scope: Scopes<Meaning>,
    pub locals: usize,
}

impl Model for Here {
    ghost use Rattle.c_checker_rules.specs.Locals.{Here};

    ghost Value = { Here };

    ghost view = { λ h. record { scope = h.scope; locals = h.locals } };
}
