/// What was made; a fault is returned. It is `?` where a fault stays as it is: a `match` has no calls to be proved.
#[macro_export]
macro_rules! ok {
    ($made:expr) => {
        match $made {
            Ok(made) => made,
            Err(fault) => return Err(fault),
        }
    };
}
