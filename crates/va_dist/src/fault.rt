// Why a query isn't made, or takes no further object.
ghost use Rattle.std.specs.Prelude.{◌≡◌};
ghost use Rattle.va_dist.specs.declared.fault.QueryFault.TheVariants.{Memory};

use std::alloc::{AllocError, AllocFailed};

/// Why a query isn't made, or takes no further object.
#[derive(Clone, Copy, Debug, PartialEq, Eq)]
pub enum QueryFault {
    /// Object number so, from 0 on, hasn't a number for each dimension.
    Length(u16),
    /// There isn't a weight for each dimension.
    Weights,
    /// There are 16 objects.
    TooMany,
    /// No memory was found.
    Memory,
}

impl From<AllocError> for QueryFault {
    ghost from_gives = { λ _ fault. fault ≡ Memory };

    fn from(_refused: AllocError) -> QueryFault {
        QueryFault::Memory
    }
}

impl<T: Drop> From<AllocFailed<T>> for QueryFault {
    ghost from_gives = { λ _ fault. fault ≡ Memory };

    fn from(_refused: AllocFailed<T>) -> QueryFault {
        QueryFault::Memory
    }
}
