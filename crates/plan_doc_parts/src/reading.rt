//! The form in which readers pass faults on.

/// What a reader gave; where it gave a fault, the function ends with it. As `?`, but for its conversion of faults: readers
/// have one type of faults, and without the conversion a function is about a sixth cheaper to prove.
#[macro_export]
macro_rules! read {
    ($given:expr) => {
        match $given {
            Ok(read) => read,
            Err(fault) => return Err(fault),
        }
    };
}
