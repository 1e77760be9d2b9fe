// A file and standard output.
ghost use Rattle.std.specs.Prelude.{◌≡◌, ◌↔◌, ◌<◌, ◌≤◌, ◌^◌, [], IsOk, IfOk};
ghost use Rattle.va_disk.specs.Frames.{CountsFaults};

use std::fs::{Files, OpenFile, OpenOptions};
use std::io;
use std::io::Print;
use std::os::unix::fs::FileExt;
use va_disk::{Desk, Disk, DiskFault, SinkFault, Storage};

/// A file as a disk, with standard output as its sink.
///
/// The file's length is asked for once, and raised by each write that ends later. After a write that failed the
/// file may be longer than `len` tells, since a part may have been written past the end.
#[derive(Drop)]
pub struct FileDesk<'a, R: Files + Print> {
    rt: &'a R,
    file: R::File,
    len: u64,
    faults: u64,
    sink_faults: u64,
    ghost bounded: { len < 2 ^ 63 },
}

impl<'a, R: Files + Print> FileDesk<'a, R>
where
    R::File: FileExt,
{
    /// Opens the file for reading and writing, and makes it where it isn't there. The machine may refuse it, and
    /// a file of `2^63` bytes or more is refused. No fault is counted yet.
    pub fn open(rt: &'a R, path: &str) -> Result<FileDesk<'a, R>, DiskFault>
        ensures faults { IfOk result (λ desk. desk.faults ≡ 0) }
        ensures sink_faults { IfOk result (λ desk. desk.sink_faults ≡ 0) }
    {
        let mut options = OpenOptions::new();
        options.read(true).write(true).create(true);
        let file = match rt.open_file(&options, path) {
            Ok(file) => file,
            Err(_) => return Err(DiskFault),
        };
        let len = match file.metadata() {
            Ok(metadata) => metadata.len(),
            Err(_) => return Err(DiskFault),
        };
        if len >= 1 << 63 {
            return Err(DiskFault);
        }
        Ok(FileDesk {
            rt,
            file,
            len,
            faults: 0,
            sink_faults: 0,
        })
    }
}

impl<'a, R: Files + Print> Storage for FileDesk<'a, R>
where
    R::File: FileExt,
{
    ghost told = { ⊥ };

    ghost honest = { ⊥ };

    ghost size = { λ desk. desk.len };

    ghost image = { λ desk. [] };

    ghost reads = { λ desk. [] };

    ghost given = { λ desk. [] };

    ghost clock = { λ desk. 0 };

    ghost may_leave = { λ desk c. ⊥ };

    ghost left_since = { λ desk t c g. ⊥ };

    ghost faults = { λ desk. desk.faults };

    ghost sink_faults = { λ desk. desk.sink_faults };
}

impl<'a, R: Files + Print> Disk for FileDesk<'a, R>
where
    R::File: FileExt,
{
    ghost bounded = { λ desk. desk.bounded };

    ghost length_told = { λ desk told. absurd told };

    ghost is_outcome = { λ desk told. absurd told };

    ghost counts_now = { λ desk t c honest. absurd honest };

    ghost only_now = { λ desk c g honest. absurd honest };

    fn len(&self) -> u64 {
        self.len
    }

    fn read(&mut self, at: u64, out: &mut [u8]) -> Result<(), DiskFault> {
        counted(&mut self.faults, self.file.read_exact_at(out, at))
    }

    fn write(&mut self, at: u64, bytes: &[u8]) -> Result<(), DiskFault> {
        let written = self.file.write_all_at(bytes, at);
        if written.is_ok() {
            self.len = self.len.max(at + bytes.len() as u64);
        }
        counted(&mut self.faults, written)
    }

    fn sync(&mut self) -> Result<(), DiskFault> {
        counted(&mut self.faults, self.file.sync_all())
    }
}

impl<'a, R: Files + Print> Desk for FileDesk<'a, R>
where
    R::File: FileExt,
{
    fn give(&mut self, bytes: &[u8]) -> Result<usize, SinkFault> {
        match self.rt.write_some(bytes) {
            Ok(count) if count > 0 => Ok(count),
            _ => {
                self.sink_faults = self.sink_faults.saturating_add(1);
                Err(SinkFault)
            }
        }
    }
}

// The count rises where the machine answered an error.
fn counted(faults: &mut u64, done: io::Result<()>) -> Result<(), DiskFault>
    ensures same { IsOk result ↔ IsOk done }
    ensures later { faults.old ≤ faults.new }
    ensures cause { CountsFaults faults.old faults.new result }
{
    match done {
        Ok(()) => Ok(()),
        Err(_) => {
            *faults = faults.saturating_add(1);
            Err(DiskFault)
        }
    }
}
