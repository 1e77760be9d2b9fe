// The texts of the lines.
ghost use Rattle.std.specs.Prelude.{◌≡◌, ◌++◌, IfOk, OnOk, decimal};
ghost use Rattle.va_script.specs.Script.{create_line, insert_line, search_line, vector_text};

use itoa::Buffer;
use std::alloc::{AllocError, Global};

// Puts a number behind a line.
fn push_number(line: &mut Vec<u8>, number: u32) -> Result<(), AllocError>
    ensures { OnOk result (line.new.items ≡ line.old.items ++ decimal number) }
{
    let mut buffer = Buffer::new();
    line.extend_from_slice(buffer.format(number).as_bytes())
}

// Puts the numbers of a vector behind a line, with commas between them.
fn push_vector(line: &mut Vec<u8>, vector: &[u8; 8]) -> Result<(), AllocError>
    ensures { OnOk result (line.new.items ≡ line.old.items ++ vector_text vector.now) }
{
    push_number(line, u32::from(vector[0]))?;
    for place in 1..8 {
        line.push(b',')?;
        push_number(line, u32::from(vector[place]))?;
    }
    Ok(())
}

/// The line that makes a store of so many places.
pub fn create(alloc: Global, places: u32) -> Result<Vec<u8>, AllocError>
    ensures { IfOk result (λ line. line.items ≡ create_line places) }
{
    let mut line = Vec::new(alloc);
    line.extend_from_slice(b"create 8 32 ")?;
    push_number(&mut line, places)?;
    Ok(line)
}

/// A line that is the same in every script.
pub fn fixed(alloc: Global, text: &[u8]) -> Result<Vec<u8>, AllocError>
    ensures { IfOk result (λ line. line.items ≡ text.now) }
{
    let mut line = Vec::new(alloc);
    line.extend_from_slice(text)?;
    Ok(line)
}

/// The line that inserts a vector.
pub fn insert(alloc: Global, id: u32, vector: &[u8; 8]) -> Result<Vec<u8>, AllocError>
    ensures { IfOk result (λ line. line.items ≡ insert_line id vector.now) }
{
    let mut line = Vec::new(alloc);
    line.extend_from_slice(b"insert ")?;
    push_number(&mut line, id)?;
    line.push(b' ')?;
    push_vector(&mut line, vector)?;
    Ok(line)
}

/// The line that searches the ten nearest to a vector.
pub fn search(alloc: Global, vector: &[u8; 8]) -> Result<Vec<u8>, AllocError>
    ensures { IfOk result (λ line. line.items ≡ search_line vector.now) }
{
    let mut line = Vec::new(alloc);
    line.extend_from_slice(b"knn 10 ")?;
    push_vector(&mut line, vector)?;
    Ok(line)
}
