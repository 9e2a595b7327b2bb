ghost use Rattle.std.specs.Prelude.{◌≡◌, IfOk, IfErr};
ghost use Rattle.cfarm_judge.specs.Bytes.{BeginsFor, BeginsNoOffer, PassHas};

use bundle_offers::PassNumber;
use lang_base::FormError;

/// The pass whose written offers have this first byte.
fn pass_by(first: u8) -> Option<PassNumber>
    ensures { PassHas first result }
{
    match first {
        17 => Some(PassNumber::First),
        18 => Some(PassNumber::Second),
        19 => Some(PassNumber::Third),
        4 => Some(PassNumber::Fourth),
        _ => None,
    }
}

/// The pass whose written offers begin with the first of the bytes.
pub(crate) fn pass_of(bytes: &[u8]) -> Result<PassNumber, FormError>
    ensures found { IfOk result (BeginsFor bytes.now) }
    ensures none { IfErr result (BeginsNoOffer bytes.now) }
{
    match bytes {
        [] => Err(FormError::Short),
        [first, _behind @ ..] => match pass_by(*first) {
            Some(pass) => Ok(pass),
            None => Err(FormError::BadTag),
        },
    }
}
