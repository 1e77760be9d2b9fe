// The packed codes of a region are scanned, piece by piece.
ghost use Rattle.std.specs.Prelude.{◌≡◌, ◌+◌, ◌*◌, ◌<◌, ◌≤◌, length, take, drop, IfOk, IfSome, OnOk, OnErr};
ghost use Rattle.va_cells.specs.Scans.{Agrees, Gives, IsCodeOf, ReadsPieces, codes_per_piece, from_start};
ghost use Rattle.va_cells.specs.Scans.{piece_at, piece_count, piece_len};
ghost use Rattle.va_core.specs.Shape.{code_bytes};
ghost use Rattle.va_disk.specs.Frames.{DiskFails, OnlyReads, ReadsOnce};
ghost use Rattle.va_layout.specs.Layout.{layout_len};
ghost use Rattle.va_layout.specs.Parts.{part};

use std::alloc::Global;
use std::marker::Model;
use va_core::{Memory, Shape};
use va_disk::{Disk, DiskFault};
use va_layout::{Layout, Region};

/// The most bytes of one piece.
const PIECE: usize = 4096;

/// A scan of the packed codes of a region, in order of their places. It reads the region in pieces of as many whole
/// codes as 4,096 bytes take, each once per scan.
///
/// A code is given as it stood when its piece was read.
#[derive(Drop)]
pub struct Pages {
    layout: Layout,
    region: Region,
    // The place that is given next, and the first whose code wasn't read yet.
    place: u32,
    end: u32,
    // The codes of the places between stand here, from an offset on.
    piece: Vec<u8>,
    begin: usize,
}

impl Model for Pages {
    ghost use Rattle.va_cells.specs.Scans.{HoldsCodes, Scan, codes_held};
    ghost use Rattle.va_core.specs.Shape.{IsShape};

    ghost Value = { Scan };

    ghost view = { λ pages. record {
      shape = pages.layout;
      region = pages.region;
      place = pages.place;
      end = pages.end;
      codes = codes_held pages.layout pages.place pages.end pages.begin pages.piece.items;
    } };

    ghost invariant = { λ pages. IsShape pages.layout × HoldsCodes pages.layout pages.place pages.end pages.begin pages.piece.items };
}

impl Pages {
    /// A scan that stands at the beginning. All memory is taken here.
    pub fn new(alloc: Global, layout: &Layout, region: Region) -> Result<Pages, Memory>
        ensures { IfOk result (λ pages. pages ≡ from_start layout.now region) }
    {
        let _dims = layout.shape().dims();
        match vec![in alloc; 0u8; PIECE] {
            Ok(piece) => Ok(Pages {
                layout: Layout::of(layout.shape()),
                region,
                place: 0,
                end: 0,
                piece,
                begin: 0,
            }),
            Err(_) => Err(Memory),
        }
    }

    /// Starts the scan anew. The pieces are read again.
    pub fn rewind(&mut self)
        ensures { self.new ≡ from_start self.old.shape self.old.region }
    {
        self.place = 0;
        self.end = 0;
        self.begin = 0;
    }

    /// The next place, and its packed code in `out`, of `code_bytes` bytes; `None` after the last place.
    ///
    /// After a fault the scan stands where it stood.
    pub fn next<D: Disk>(&mut self, disk: &mut D, out: &mut [u8]) -> Result<Option<u32>, DiskFault>
        requires fits { layout_len self.old.shape ≤ D.size disk.old }
        requires room { length out.old ≡ code_bytes self.old.shape }
        ensures inside { (self.old.place ≤ self.old.end) × (self.old.end ≤ self.old.shape.capacity) }
        ensures gives { IfOk result (λ next. Gives next self.old self.new) }
        ensures stands { OnErr result (self.new ≡ self.old) }
        ensures same { (self.new.shape ≡ self.old.shape) × (self.new.region ≡ self.old.region) }
        ensures code { D.told → Agrees self.old (D.image disk.old)
            → IfOk result (λ next. IfSome next (λ place. IsCodeOf self.old place (D.image disk.old) out.new)) }
        // The codes that are held stay those of the region, until they are written.
        ensures agrees { D.told → Agrees self.old (D.image disk.old) → Agrees self.new (D.image disk.new) }
        ensures length { length out.new ≡ length out.old }
        ensures pieces { ReadsPieces D.Storage self.old.shape self.old.region self.old.end self.new.end disk.old disk.new }
        ensures frame { OnlyReads D.Storage disk.old disk.new }
        ensures cause { DiskFails D.Storage disk.old disk.new result }
    {
        let shape = self.layout.shape();
        if self.place == shape.capacity() {
            return Ok(None);
        }
        if self.place == self.end {
            self.read_piece(disk)?;
        }
        self.give_code(out);
        Ok(Some(self.place - 1))
    }

    // Reads the next piece, where all codes of the last one were given.
    fn read_piece<D: Disk>(&mut self, disk: &mut D) -> Result<(), DiskFault>
        requires fits { layout_len self.old.shape ≤ D.size disk.old }
        requires empty { self.old.place ≡ self.old.end }
        requires more { self.old.end < self.old.shape.capacity }
        ensures ok { OnOk result (self.new
            ≡ record self.old { end = self.old.end + piece_count self.old.shape self.old.end; codes = self.new.codes }) }
        ensures codes { OnOk result (D.told → self.new.codes ≡ part (piece_at self.old) (piece_len self.old) (D.image disk.old)) }
        ensures stands { OnErr result (self.new ≡ self.old) }
        ensures reads { ReadsOnce D.Storage disk.old disk.new (piece_at self.old) (piece_len self.old) result }
        ensures frame { OnlyReads D.Storage disk.old disk.new }
        ensures cause { DiskFails D.Storage disk.old disk.new result }
    {
        let shape = self.layout.shape();
        let count = codes_per_piece(shape).min(shape.capacity() - self.end);
        let len = count as usize * shape.code_bytes();
        let at = self.layout.code_at(self.region, self.end);
        read_front(disk, at, len, &mut self.piece)?;
        self.begin = 0;
        self.end += count;
        Ok(())
    }

    // Gives the first code that is held.
    fn give_code(&mut self, out: &mut [u8])
        requires some { self.old.place < self.old.end }
        requires room { length out.old ≡ code_bytes self.old.shape }
        ensures code { out.new ≡ take (code_bytes self.old.shape) self.old.codes }
        ensures scan { self.new
            ≡ record self.old { place = self.old.place + 1; codes = drop (code_bytes self.old.shape) self.old.codes } }
        ensures length { length out.new ≡ length out.old }
    {
        let len = self.layout.shape().code_bytes();
        out.copy_from_slice(&self.piece[self.begin..self.begin + len]);
        self.place += 1;
        self.begin += len;
    }
}

// How many whole codes a piece takes.
fn codes_per_piece(shape: Shape) -> u32
    ensures count { result ≡ codes_per_piece shape }
    ensures some { 1 ≤ result }
    ensures fit { result * code_bytes shape ≤ 4096 }
{
    let _dims = shape.dims();
    (PIECE / shape.code_bytes()) as u32
}

// Reads so many bytes into the front of a buffer.
fn read_front<D: Disk>(
    disk: &mut D,
    at: u64,
    len: usize,
    buffer: &mut [u8],
) -> Result<(), DiskFault>
    requires room { len ≤ length buffer.old }
    requires inside { at + len ≤ D.size disk.old }
    ensures front { OnOk result (D.told → take len buffer.new ≡ part at len (D.image disk.old)) }
    ensures length { length buffer.new ≡ length buffer.old }
    ensures reads { ReadsOnce D.Storage disk.old disk.new at len result }
    ensures frame { OnlyReads D.Storage disk.old disk.new }
    ensures cause { DiskFails D.Storage disk.old disk.new result }
{
    disk.read(at, &mut buffer[..len])
}
