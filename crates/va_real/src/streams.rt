// The descriptors of the standard streams.
use std::fs::{Files, OpenOptions};
use va_disk::DiskFault;

// The file that takes everything and holds nothing.
const NOTHING: &str = "/dev/null";

/// Descriptors that keep the places of standard input, output and error taken.
///
/// A program may be started with some of its streams closed. The next file that it opens then gets the descriptor
/// of the stream, and replies are written over the store. So a program takes these first and holds them to its end:
/// where a stream is closed, the null device stands in its place.
#[derive(Drop)]
pub struct Streams<R: Files> {
    input: R::File,
    output: R::File,
    error: R::File,
}

impl<R: Files> Streams<R> {
    /// Opens the null device as often as there are standard streams. The machine may refuse it.
    pub fn hold(rt: &R) -> Result<Streams<R>, DiskFault> {
        Ok(Streams {
            input: open_nothing(rt)?,
            output: open_nothing(rt)?,
            error: open_nothing(rt)?,
        })
    }
}

// For reading and writing, so that it can stand for any of the streams.
fn open_nothing<R: Files>(rt: &R) -> Result<R::File, DiskFault> {
    let mut options = OpenOptions::new();
    options.read(true).write(true);
    rt.open_file(&options, NOTHING).map_err(|_| DiskFault)
}
