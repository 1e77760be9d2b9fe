// The line that is open while bytes come in.
ghost use Rattle.std.specs.Prelude.{◌≡◌, ◌≤◌, ◌↔◌, [], IsTrue, IfOk, length, vec_capacity};
ghost use Rattle.va_model.specs.Lines.{Line, text};
ghost use Rattle.va_serve.specs.OpenLine.{extended, buffered};
ghost use Rattle.va_serve.specs.Session.{line_handed};

use std::alloc::Global;
use std::marker::Model;
use va_core::Memory;

/// The longest line, in bytes.
pub const LONGEST: usize = 65535;

/// The open line, in room for the longest one.
#[derive(Drop)]
pub struct LineBuffer {
    bytes: Vec<u8>,
    is_long: bool,
}

impl Model for LineBuffer {
    ghost Value = { Line };

    ghost view = { λ buffer. buffered buffer.is_long buffer.bytes.items };

    ghost invariant = { λ buffer. (length buffer.bytes.items ≤ 65535) × (65535 ≤ vec_capacity buffer.bytes) };
}

impl LineBuffer {
    /// Takes the room for a line.
    pub fn new(alloc: Global) -> Result<LineBuffer, Memory>
        ensures { IfOk result (λ buffer. buffer ≡ text []) }
    {
        match Vec::with_capacity(alloc, LONGEST) {
            Ok(bytes) => Ok(LineBuffer {
                bytes,
                is_long: false,
            }),
            Err(_) => Err(Memory),
        }
    }

    /// Adds a byte to the line.
    pub fn push(&mut self, byte: u8)
        ensures { self.new ≡ extended self.old byte }
    {
        if self.is_long {
            return;
        }
        if self.bytes.len() == LONGEST {
            self.is_long = true;
            return;
        }
        let _ = self.bytes.push(byte);
    }

    /// Begins the next line.
    pub fn clear(&mut self)
        ensures { self.new ≡ text [] }
    {
        self.bytes.clear();
        self.is_long = false;
    }

    /// The line, or nothing where it is too long.
    pub fn line(&self) -> Option<&[u8]>
        ensures { line_handed result ≡ self.now }
    {
        if self.is_long {
            None
        } else {
            Some(&self.bytes)
        }
    }

    /// Whether no byte of the line has come.
    pub fn is_empty(&self) -> bool
        ensures { IsTrue result ↔ (self.now ≡ text []) }
    {
        !self.is_long && self.bytes.is_empty()
    }
}
