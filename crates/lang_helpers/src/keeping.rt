ghost use Rattle.std.specs.Prelude.{◌≡◌, IfOk, IfErr, MatchResult, Ok, Err};

/// What was made before, beside what is made behind it.
pub fn beside<A: Drop, B, E>(before: A, behind: Result<B, E>) -> Result<(A, B), E>
    ensures ok { IfOk result (λ r. (r.0 ≡ before) × (behind ≡ Ok r.1)) }
    ensures err { IfErr result (λ e. behind ≡ Err e) }
{
    match behind {
        Ok(behind) => Ok((before, behind)),
        Err(fault) => Err(fault),
    }
}

/// Two results as one. A fault of the first comes before one of the second.
pub fn both<A: Drop, B: Drop, E: Drop>(
    first: Result<A, E>,
    second: Result<B, E>,
) -> Result<(A, B), E>
    ensures ok { IfOk result (λ r. (first ≡ Ok r.0) × (second ≡ Ok r.1)) }
    ensures err { IfErr result (λ e. MatchResult first (λ x. second ≡ Err e) (λ fault. fault ≡ e)) }
{
    match first {
        Ok(first) => beside(first, second),
        Err(fault) => Err(fault),
    }
}
