// Why a store isn't created, opened, written or read.
ghost use Rattle.std.specs.Prelude.{◌≡◌, Some};
ghost use Rattle.va_store.specs.FaultTexts.{fault_text};
ghost use Rattle.va_store.specs.Image.{of_cells_fault, of_head_fault};
ghost use Rattle.va_store.specs.declared.faults.OpenFault.TheVariants as faults;

use std::fmt;
use std::fmt::{Display, Formatter, Write};
use va_cells::CellsFault;
use va_core::{Memory, ShapeFault};
use va_disk::DiskFault;
use va_layout::HeadFault;

/// Why a store isn't created.
#[derive(Clone, Copy, Debug, PartialEq, Eq)]
pub enum CreateFault {
    /// A call of the disk failed. What a crash leaves then is blank, or the file of the empty store.
    Disk,
    /// No memory was found, and the disk wasn't called.
    Memory,
}

/// Why a store isn't opened: the first reason that holds of its file, or what was wanting to read it.
#[derive(Clone, Copy, Debug, PartialEq, Eq)]
pub enum OpenFault {
    /// There is no store.
    Blank,
    /// The header says no shape.
    Header(HeadFault),
    /// The file is shorter than its shape needs. Both lengths are in bytes.
    Length { need: u64, have: u64 },
    /// The first dimension, from 0 on, whose marks in the selected region don't begin with 0, rise weakly and end with 256.
    Marks(u16),
    /// The same id lives in two places. The second is the least whose id lives in an earlier one.
    SameId(u32, u32),
    /// The least place where an id lives and the code in the selected region has a padding bit 1, or names an empty slice.
    Code(u32),
    /// A call of the disk failed.
    Disk,
    /// No memory was found. It comes only once the length was tested.
    Memory,
}

/// Why a vector isn't inserted. But for Disk the store and its file are as they were.
#[derive(Clone, Copy, Debug, PartialEq, Eq)]
pub enum InsertFault {
    /// An earlier write failed, so the store has to be opened again.
    Broken,
    /// The vector hasn't as many bytes as the store's.
    Length,
    /// The id lives in this place.
    Duplicate(u32),
    /// No place is free.
    Full,
    /// A call of the disk failed. The store is broken.
    Disk,
}

/// Why an id isn't deleted. But for Disk the store and its file are as they were.
#[derive(Clone, Copy, Debug, PartialEq, Eq)]
pub enum DeleteFault {
    /// An earlier write failed, so the store has to be opened again.
    Broken,
    /// The id lives nowhere.
    Unknown,
    /// A call of the disk failed. The store is broken.
    Disk,
}

/// Why a vector isn't read.
#[derive(Clone, Copy, Debug, PartialEq, Eq)]
pub enum GetFault {
    /// The id lives nowhere.
    Unknown,
    /// A call of the disk failed.
    Disk,
}

impl From<DiskFault> for OpenFault {
    ghost from_gives = { λ _ fault. fault ≡ faults.Disk };

    fn from(_fault: DiskFault) -> OpenFault {
        OpenFault::Disk
    }
}

impl From<Memory> for OpenFault {
    ghost from_gives = { λ _ fault. fault ≡ faults.Memory };

    fn from(_want: Memory) -> OpenFault {
        OpenFault::Memory
    }
}

impl From<CellsFault> for OpenFault {
    ghost from_gives = { λ cells fault. fault ≡ of_cells_fault cells };

    fn from(fault: CellsFault) -> OpenFault {
        match fault {
            CellsFault::Disk => OpenFault::Disk,
            CellsFault::Marks(dim) => OpenFault::Marks(dim),
            CellsFault::Memory => OpenFault::Memory,
        }
    }
}

impl From<HeadFault> for OpenFault {
    ghost from_gives = { λ head fault. fault ≡ of_head_fault head };

    fn from(head: HeadFault) -> OpenFault {
        match head {
            HeadFault::Blank => OpenFault::Blank,
            HeadFault::Magic | HeadFault::Shape(_) => OpenFault::Header(head),
        }
    }
}

/// The reason in a few words.
impl Display for OpenFault {
    ghost output = { λ fault. Some (fault_text fault) };

    fn fmt<W: Write>(&self, f: &mut Formatter<W>) -> fmt::Result {
        match self {
            OpenFault::Blank | OpenFault::Header(HeadFault::Blank) => f.write_str("blank"),
            OpenFault::Header(HeadFault::Magic) => f.write_str("magic"),
            OpenFault::Header(HeadFault::Shape(ShapeFault::Dims)) => f.write_str("shape dims"),
            OpenFault::Header(HeadFault::Shape(ShapeFault::Bits)) => f.write_str("shape bits"),
            OpenFault::Header(HeadFault::Shape(ShapeFault::Capacity)) => {
                f.write_str("shape capacity")
            }
            OpenFault::Length { need, have } => {
                let (need, have) = (*need, *have);
                write!(f, "length need {need} have {have}")
            }
            OpenFault::SameId(first, second) => {
                let (first, second) = (*first, *second);
                write!(f, "same id {first} {second}")
            }
            OpenFault::Marks(dim) => {
                let dim = *dim;
                write!(f, "marks {dim}")
            }
            OpenFault::Code(place) => {
                let place = *place;
                write!(f, "code {place}")
            }
            OpenFault::Disk => f.write_str("disk fault"),
            OpenFault::Memory => f.write_str("no memory"),
        }
    }
}
