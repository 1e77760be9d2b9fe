// The codes of the places are scanned.
ghost use Rattle.std.specs.Prelude.{◌≡◌, ◌<◌, ◌≤◌, ℕ, None, Some, true, false, is_some, get_or, length, IfOk, IfSome};
ghost use Rattle.va_cells.specs.Scans.{Agrees, ReadsPieces};
ghost use Rattle.va_core.specs.Marks.{HasShape};
ghost use Rattle.va_core.specs.Shape.{code_bytes};
ghost use Rattle.va_disk.specs.Frames.{DiskFails, OnlyReads};
ghost use Rattle.va_layout.specs.Fields.{NamesCell};
ghost use Rattle.va_layout.specs.Layout.{layout_len};
ghost use Rattle.va_store.specs.Image.{IsFirstUnnamed};
ghost use Rattle.va_store.specs.Known.{AreNamed};

use crate::index::Index;
use va_cells::{Pages, names_cell};
use va_core::Shape;
use va_disk::{Disk, DiskFault};
use va_marks::Marks;

/// The first live place whose code names no cell, by a scan that stands at its beginning. It reads each piece once, up to that
/// place or to the end.
pub(crate) fn first_unnamed<D: Disk>(
    disk: &mut D,
    pages: &mut Pages,
    shape: Shape,
    marks: &Marks,
    index: &Index,
) -> Result<Option<u32>, DiskFault>
    requires fits { layout_len shape ≤ D.size disk.old }
    requires fit { HasShape shape marks.now }
    requires ids { length index.now ≡ shape.capacity }
    requires shape { pages.old.shape ≡ shape }
    requires begins { pages.old.place ≡ 0 }
    requires agrees { D.told → Agrees pages.old (D.image disk.old) }
    ensures named { IfOk result (λ first. first ≡ None → D.told → AreNamed shape pages.old.region marks.now index.now (D.image disk.old)) }
    ensures unnamed { IfOk result (λ first. IfSome first (λ place. D.told → IsFirstUnnamed shape pages.old.region marks.now index.now (D.image disk.old) place)) }
    ensures over { (pages.new.shape ≡ pages.old.shape) × (pages.new.region ≡ pages.old.region) }
    ensures pieces { ReadsPieces D.Storage pages.old.shape pages.old.region pages.old.end pages.new.end disk.old disk.new }
    ensures all { IfOk result (λ first. first ≡ None → pages.new.end ≡ shape.capacity) }
    ensures frame { OnlyReads D.Storage disk.old disk.new }
    ensures cause { DiskFails D.Storage disk.old disk.new result }
{
    let mut buffer = [0; 256];
    let code = &mut buffer[..shape.code_bytes()];
    while let Some(place) = pages.next(disk, code)? {
        if !is_named(shape, marks, index, place, code) {
            return Ok(Some(place));
        }
    }
    Ok(None)
}

// Whether no id lives in a place, or the place's code names a cell.
fn is_named(shape: Shape, marks: &Marks, index: &Index, place: u32, code: &[u8]) -> bool
    requires place { place < length index.now }
    requires fit { HasShape shape marks.now }
    requires whole { length code.now ≡ code_bytes shape }
    ensures named { result ≡ true → (id : ℕ) → get_or index.now place None ≡ Some id → NamesCell shape marks.now code.now }
    ensures unnamed { result ≡ false → (is_some (get_or index.now place None) ≡ true) × (NamesCell shape marks.now code.now → ⊥) }
{
    if index.id_at(place).is_none() {
        return true;
    }
    names_cell(shape, marks, code)
}
