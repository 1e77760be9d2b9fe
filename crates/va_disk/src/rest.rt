// What is left of a text.
ghost use Rattle.std.specs.Prelude.{◌≡◌, ◌≤◌, List, ℕ, length, take, drop, ◌++◌, min};

use std::marker::Model;

/// A text that is used up from the front, as the list of the bytes that are left.
#[derive(Drop)]
pub struct Rest {
    bytes: Vec<u8>,
    at: usize,
}

impl Model for Rest {
    ghost use Rattle.std.specs.Prelude.{◌≤◌, List, ℕ, length, drop};

    ghost Value = { List ℕ };

    ghost view = { λ rest. drop rest.at rest.bytes.items };

    ghost invariant = { λ rest. rest.at ≤ length rest.bytes.items };
}

impl Rest {
    pub fn new(bytes: Vec<u8>) -> Rest
        ensures { result ≡ bytes.items }
    {
        Rest { bytes, at: 0 }
    }

    pub fn as_slice(&self) -> &[u8]
        ensures { result.now ≡ self.now }
    {
        &self.bytes[self.at..]
    }

    /// Moves as many bytes as there are and `out` has room for, and answers how many.
    pub fn pull(&mut self, out: &mut [u8]) -> usize
        ensures count { result ≡ min (length out.old) (length self.old) }
        ensures moved { out.new ≡ take result self.old ++ drop result out.old }
        ensures left { self.new ≡ drop result self.old }
    {
        let count = out.len().min(self.bytes.len() - self.at);
        out[..count].copy_from_slice(&self.bytes[self.at..self.at + count]);
        self.at += count;
        count
    }
}
