// A vector as a record of CSV.
ghost use Rattle.std.specs.Prelude.{◌≡◌, ◌∷◌, IfOk, map, decimal};
ghost use Rattle.csv.specs.Records.{fields_of};
ghost use Rattle.csv.specs.Writing.{default_writer, row_text};
ghost use Rattle.va_csv.specs.Lines.{row_of};

use csv::{ByteRecord, Error, WriterBuilder};
use itoa::Buffer;
use std::alloc::{AllocError, Global};
use va_core::{Bytes, Memory};

// The id and the coordinates as fields.
fn numbers(alloc: Global, id: u32, vector: &[u8]) -> Result<ByteRecord, AllocError>
    ensures { IfOk result (λ made. fields_of made ≡ map decimal (id ∷ vector.now)) }
{
    let mut fields = ByteRecord::new(alloc);
    let mut buffer = Buffer::new();
    fields.push_field(buffer.format(id).as_bytes())?;
    for coordinate in vector {
        fields.push_field(buffer.format(*coordinate).as_bytes())?;
    }
    Ok(fields)
}

// The text of a record.
fn written(alloc: Global, fields: &ByteRecord) -> Result<Vec<u8>, Error>
    ensures { IfOk result (λ text. text.items ≡ row_text default_writer (fields_of fields.now)) }
{
    let mut writer = WriterBuilder::new().from_writer(Vec::new(alloc));
    writer.write_byte_record(fields)?;
    match writer.into_inner() {
        Ok(text) => Ok(text),
        Err(error) => Err(error.into_error()),
    }
}

/// The record `id,c1,c2` of an id and a vector, with its newline, for as many coordinates as there are. Memory where there is
/// no room for it.
pub fn row(alloc: Global, id: u32, vector: &[u8]) -> Result<Bytes, Memory>
    ensures { IfOk result (λ row. row ≡ row_of id vector.now) }
{
    let Ok(fields) = numbers(alloc, id, vector) else {
        return Err(Memory);
    };
    match written(alloc, &fields) {
        Ok(text) => Ok(Bytes(text)),
        Err(_) => Err(Memory),
    }
}
