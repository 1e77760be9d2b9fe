// Why bytes gave no marks.
ghost use Rattle.std.specs.Prelude.{◌≡◌};
ghost use Rattle.va_marks.specs.declared.fault.MarksFault.TheVariants.{Memory};

use std::alloc::{AllocError, AllocFailed};

/// Why marks weren't read.
#[derive(Clone, Copy, Debug, PartialEq, Eq)]
pub enum MarksFault {
    /// The first dimension whose marks don't begin with 0, rise weakly and end with 256.
    Dim(u16),
    /// No memory was found.
    Memory,
}

impl From<AllocError> for MarksFault {
    ghost from_gives = { λ _ fault. fault ≡ Memory };

    fn from(_refused: AllocError) -> MarksFault {
        MarksFault::Memory
    }
}

impl<T: Drop> From<AllocFailed<T>> for MarksFault {
    ghost from_gives = { λ _ fault. fault ≡ Memory };

    fn from(_refused: AllocFailed<T>) -> MarksFault {
        MarksFault::Memory
    }
}
