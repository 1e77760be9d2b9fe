// Standard input.
ghost use Rattle.std.specs.Prelude.{◌≡◌, []};

use std::io;
use std::io::Read;
use va_disk::{Source, SourceFault};

/// Standard input as a source. A read that is interrupted counts as a fault.
#[derive(Drop)]
pub struct Input<'a, R: io::Input> {
    rt: &'a R,
    reader: R::Reader,
    faults: u64,
}

impl<'a, R: io::Input> Input<'a, R> {
    /// No fault is counted yet.
    pub fn new(rt: &'a R) -> Input<'a, R>
        ensures { result.faults ≡ 0 }
    {
        Input {
            rt,
            reader: rt.reader(),
            faults: 0,
        }
    }
}

impl<'a, R: io::Input> Source for Input<'a, R> {
    ghost told = { ⊥ };

    ghost left = { λ input. [] };

    ghost faults = { λ input. input.faults };

    fn take(&mut self, out: &mut [u8]) -> Result<usize, SourceFault> {
        match self.reader.read(out) {
            Ok(count) => Ok(count),
            Err(_) => {
                self.faults = self.faults.saturating_add(1);
                Err(SourceFault)
            }
        }
    }
}
