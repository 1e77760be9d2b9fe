// The records of a text, each as the line that inserts it.
ghost use Rattle.std.specs.Prelude.{◌≡◌, ◌++◌, [], IfOk, OnOk, unwrap_or};
ghost use Rattle.csv.specs.Reading.{NotLengths, error_kind};
ghost use Rattle.csv.specs.Records.{field_at, fields_of};
ghost use Rattle.va_csv.specs.Lines.{line_of, lines_of};

use csv::{ByteRecord, Error, ReaderBuilder};
use std::alloc::{AllocError, Global};
use va_core::{Bytes, Memory};

// Puts the field at a place behind a line, if there is one.
fn push_field(line: &mut Vec<u8>, fields: &ByteRecord, place: usize) -> Result<(), AllocError>
    ensures { OnOk result (line.new.items ≡ line.old.items ++ unwrap_or (field_at (fields_of fields.now) place) []) }
{
    match fields.get(place) {
        Some(field) => line.extend_from_slice(field),
        None => Ok(()),
    }
}

// The line of a record: the first field stands for the id, the others for the coordinates.
fn line(alloc: Global, fields: &ByteRecord) -> Result<Bytes, AllocError>
    ensures { IfOk result (λ line. line ≡ line_of (fields_of fields.now)) }
{
    let mut line = Vec::new(alloc);
    line.extend_from_slice(b"insert ")?;
    push_field(&mut line, fields, 0)?;
    line.push(b' ')?;
    push_field(&mut line, fields, 1)?;
    for place in 2..fields.len() {
        line.push(b',')?;
        push_field(&mut line, fields, place)?;
    }
    Ok(Bytes(line))
}

// What stopped a reader. It isn't that records differ in length.
fn stopped(error: Error) -> Memory
    requires { NotLengths (error_kind error) }
{
    let _ = error;
    Memory
}

/// The lines that insert the records of a text, one for each, in their order: `insert F0 F1,F2,F3` for the fields F0 to F3.
/// A record of one field gives `insert F0 ` with a space at its end. Nothing is tested of a field, so a line needn't be a
/// command, and may hold any byte. Memory where there is no room for them.
pub fn lines(alloc: Global, bytes: &[u8]) -> Result<Vec<Bytes>, Memory>
    ensures { IfOk result (λ lines. lines.items ≡ lines_of bytes.now) }
{
    let reader = ReaderBuilder::new()
        .has_headers(false)
        .flexible(true)
        .from_reader(alloc, bytes);
    let mut lines = Vec::new(alloc);
    for read in reader.into_byte_records() {
        let fields = match read {
            Ok(fields) => fields,
            Err(error) => return Err(stopped(error)),
        };
        let Ok(line) = line(alloc, &fields) else {
            return Err(Memory);
        };
        if lines.push(line).is_err() {
            return Err(Memory);
        }
    }
    Ok(lines)
}
