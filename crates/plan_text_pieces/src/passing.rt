//! The form in which want of memory is passed on.

/// What a step gave; where it refused, the function ends with that. As `?`, but for its conversion of errors: where there
/// is one type of errors, a function is about a sixth cheaper to prove without it.
#[macro_export]
macro_rules! done {
    ($given:expr) => {
        match $given {
            Ok(given) => given,
            Err(refused) => return Err(refused),
        }
    };
}
