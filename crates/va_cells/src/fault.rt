// Why marks weren't read.
ghost use Rattle.std.specs.Prelude.{◌≡◌};
ghost use Rattle.va_cells.specs.Faults.{of_marks_fault};
ghost use Rattle.va_cells.specs.declared.fault.CellsFault.TheVariants.{Disk, Memory};

use std::alloc::AllocError;
use va_disk::DiskFault;
use va_marks::MarksFault;

/// Why marks weren't read.
#[derive(Clone, Copy, Debug, PartialEq, Eq)]
pub enum CellsFault {
    /// A call of the disk failed.
    Disk,
    /// The first dimension, from 0 on, whose marks don't begin with 0, rise weakly and end with 256.
    Marks(u16),
    /// No memory was found.
    Memory,
}

impl From<DiskFault> for CellsFault {
    ghost from_gives = { λ _ fault. fault ≡ Disk };

    fn from(_fault: DiskFault) -> CellsFault {
        CellsFault::Disk
    }
}

impl From<AllocError> for CellsFault {
    ghost from_gives = { λ _ fault. fault ≡ Memory };

    fn from(_refused: AllocError) -> CellsFault {
        CellsFault::Memory
    }
}

impl From<MarksFault> for CellsFault {
    ghost from_gives = { λ marks fault. fault ≡ of_marks_fault marks };

    fn from(fault: MarksFault) -> CellsFault {
        match fault {
            MarksFault::Dim(dim) => CellsFault::Marks(dim),
            MarksFault::Memory => CellsFault::Memory,
        }
    }
}
