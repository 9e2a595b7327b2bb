/// The value of an option, or the function answers none. It is `?` without the calls that this makes, which would be proved.
#[macro_export]
macro_rules! some {
    ($made:expr) => {
        match $made {
            Some(made) => made,
            None => return None,
        }
    };
}

/// The value of a result, or the function answers none.
#[macro_export]
macro_rules! fine {
    ($made:expr) => {
        match $made {
            Ok(made) => made,
            Err(_fault) => return None,
        }
    };
}

/// The value of a result, or the function answers its fault as it is.
#[macro_export]
macro_rules! done {
    ($made:expr) => {
        match $made {
            Ok(made) => made,
            Err(fault) => return Err(fault),
        }
    };
}
