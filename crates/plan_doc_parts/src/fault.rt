//! Why a value could not be read.
ghost use Rattle.std.specs.Prelude.{◌≡◌};
ghost use Rattle.plan_doc_parts.specs.declared.fault.Fault.TheVariants.{Memory};

use std::alloc::AllocError;

/// Why a value could not be read.
#[derive(Clone, Copy, Debug, PartialEq, Eq)]
pub enum Fault {
    /// The value is not of the form.
    Form,
    /// There was not enough memory.
    Memory,
}

impl From<AllocError> for Fault {
    ghost from_gives = { λ _ e. e ≡ Memory };

    fn from(_e: AllocError) -> Fault {
        Fault::Memory
    }
}
