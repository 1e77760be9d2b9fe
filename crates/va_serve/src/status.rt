// How a run ended.
ghost use Rattle.std.specs.Prelude.{◌≡◌, Some};
ghost use Rattle.va_serve.specs.Statuses.{status_code, status_text};

use std::fmt::{self, Display, Formatter, Write};
use va_store::OpenFault;

/// How a run ended.
#[derive(Clone, Copy, Debug, PartialEq, Eq)]
pub enum Status {
    /// The input ended, and each line has its reply; or all records were exported, or the script was worked.
    Done,
    /// The words ask for no mode.
    Usage,
    /// The source failed. The lines that ended until then have their replies; of a CSV text no record was run.
    ReadFault,
    /// The sink failed. Of the reply or the record at which it failed a proper prefix was given.
    WriteFault,
    /// The disk failed. Of the line in which it failed nothing was replied, and it was run or not; of the vector in
    /// which it failed no record was given.
    DiskFault,
    /// The file is no store, and why. Nothing was taken, given or written.
    Store(OpenFault),
    /// In a line the distance of the vector in a place lies outside the bounds of its stored cell. Nothing was replied
    /// to that line. Never on a file that stands for a state.
    Mismatch {
        place: u32,
        dist: u64,
        low: u64,
        high: u64,
    },
    /// The scan of a line met in a live place a code that names no cell, which the file hadn't when it was opened.
    /// Nothing was replied to that line. Never on a desk that tells its bytes.
    Changed {
        place: u32,
    },
    /// There was no memory to begin with: no line was run. Of a CSV text some may have been taken, of an export some
    /// records given, and of a script some lines run: the file then stands for the store after them.
    Memory,
    /// The input is longer than the limit. The lines that ended within it have their replies; of a CSV text no record
    /// was run.
    TooLong,
}

impl Status {
    /// The exit code of the program.
    pub fn code(&self) -> u8
        ensures { result ≡ status_code self.now }
    {
        match self {
            Status::Done => 0,
            Status::Usage => 2,
            Status::ReadFault => 3,
            Status::WriteFault => 4,
            Status::DiskFault => 5,
            Status::Store(_) | Status::Mismatch { .. } | Status::Changed { .. } => 6,
            Status::Memory => 7,
            Status::TooLong => 8,
        }
    }
}

/// The text for standard error, empty for Done.
impl Display for Status {
    ghost output = { λ status. Some (status_text status) };

    fn fmt<W: Write>(&self, f: &mut Formatter<W>) -> fmt::Result {
        match self {
            Status::Done => Ok(()),
            Status::Usage => f.write_str("usage: va_cli STORE [--csv] [--export] [--work N]"),
            Status::ReadFault => f.write_str("read fault"),
            Status::WriteFault => f.write_str("write fault"),
            Status::DiskFault => f.write_str("disk fault"),
            Status::Store(fault) => write!(f, "store: {fault}"),
            Status::Mismatch {
                place,
                dist,
                low,
                high,
            } => write!(
                f,
                "mismatch place {place} dist {dist} low {low} high {high}"
            ),
            Status::Changed { place } => write!(f, "changed code {place}"),
            Status::Memory => f.write_str("no memory"),
            Status::TooLong => f.write_str("input too long"),
        }
    }
}
