//! Why no listing is written.

use plan_core::PolarsError;
use plan_doc::ReadError;
use std::alloc::AllocError;

/// Why no listing is written.
#[derive(Clone, Copy, PartialEq, Eq, Debug)]
pub enum Stop {
    /// The bytes are no JSON text.
    NotJson,
    /// The JSON value is no document.
    Form,
    /// The plan or an expression has too many levels.
    Limit,
    /// The tables don't fit the plan.
    Unfit,
    /// The plan has this fault, which isn't want of memory.
    Fault(PolarsError),
    /// There was not enough memory.
    OutOfMemory,
}

impl From<AllocError> for Stop {
    ghost use Rattle.std.specs.Prelude.{◌≡◌};
    ghost use Rattle.plan_tool.specs.declared.stop.Stop.TheVariants as stops;

    ghost from_gives = { λ _ stop. stop ≡ stops.OutOfMemory };

    fn from(_error: AllocError) -> Self {
        Stop::OutOfMemory
    }
}

impl From<ReadError> for Stop {
    ghost use Rattle.std.specs.Prelude.{◌≡◌};
    ghost use Rattle.plan_tool.specs.Stops.{stop_of_reading};

    ghost from_gives = { λ error stop. stop ≡ stop_of_reading error };

    fn from(error: ReadError) -> Self {
        match error {
            ReadError::NotJson => Stop::NotJson,
            ReadError::Form => Stop::Form,
            ReadError::OutOfMemory => Stop::OutOfMemory,
        }
    }
}

impl From<PolarsError> for Stop {
    ghost use Rattle.std.specs.Prelude.{◌≡◌};
    ghost use Rattle.plan_tool.specs.Stops.{stop_of_fault};

    ghost from_gives = { λ error stop. stop ≡ stop_of_fault error };

    fn from(error: PolarsError) -> Self {
        match error {
            PolarsError::OutOfMemory => Stop::OutOfMemory,
            fault => Stop::Fault(fault),
        }
    }
}
