// The top call.
ghost use Rattle.std.specs.Prelude.{◌≡◌, ◌≢◌, ◌≤◌, map, string_bytes};
ghost use Rattle.va_csv.specs.Lines.{lines_of};
ghost use Rattle.va_model.specs.Ends.{at_newlines, once_taken};
ghost use Rattle.va_disk.specs.Frames.{OnlyReads};
ghost use Rattle.va_serve.specs.Importing.{IsCutShort};
ghost use Rattle.va_serve.specs.Modes.{Ran};
ghost use Rattle.va_serve.specs.Whole.{RanStore};
ghost use Rattle.va_serve.specs.declared.status.Status.TheVariants as statuses;

use crate::Status;
use crate::buffer::LineBuffer;
use crate::exporting::run_export;
use crate::importing::run_records;
use crate::serving::run_lines;
use crate::session::Session;
use crate::working::run_work;
use std::alloc::Global;
use va_disk::{Desk, Source};
use va_words::{Mode, WordsFault, mode};

/// The most bytes of an input.
const MOST_INPUT: u64 = 4_294_967_296;

/// The most bytes of a CSV text.
const MOST_CSV: u64 = 67_108_864;

/// Runs what the words ask for on the store of the desk: `run_within` with a limit of 4,294,967,296 bytes.
pub fn run<D: Desk, S: Source>(
    alloc: Global,
    words: &[String],
    source: &mut S,
    desk: &mut D,
) -> Status
    ensures { Ran D.Storage S.Source 4294967296 (map string_bytes words.now) source.old source.new desk.old desk.new
        result }
{
    run_within(alloc, words, source, desk, MOST_INPUT)
}

/// Runs what the words ask for on the store of the desk; the words are those after the store's path.
///
/// - Without a word it runs the lines of the source, and gives one reply a line.
/// - With `--csv` it takes the whole source first, at most 67,108,864 bytes, and runs the lines that insert its
///   records.
/// - With `--export` it gives the live vectors as a CSV text, and with `--work N` it works the script for N, or says
///   `error exists` where there is a store. Neither touches the source.
///
/// It takes at most `limit` bytes, and one more to see that there is one.
pub fn run_within<D: Desk, S: Source>(
    alloc: Global,
    words: &[String],
    source: &mut S,
    desk: &mut D,
    limit: u64,
) -> Status
    requires { 1 ≤ limit }
    ensures { Ran D.Storage S.Source limit (map string_bytes words.now) source.old source.new desk.old desk.new result }
{
    match mode(alloc, words) {
        Ok(Mode::Plain) => run_store(alloc, source, desk, limit),
        Ok(Mode::Csv) => run_csv(alloc, source, desk, limit.min(MOST_CSV)),
        Ok(Mode::Export) => run_export(alloc, desk),
        Ok(Mode::Work(n)) => run_work(alloc, desk, n),
        Err(WordsFault::Usage) => Status::Usage,
        Err(WordsFault::Memory) => Status::Memory,
    }
}

// Opens the store of the desk, and runs the lines of the source on it.
fn run_store<D: Desk, S: Source>(alloc: Global, source: &mut S, desk: &mut D, limit: u64) -> Status
    ensures ran { RanStore D.Storage S.Source at_newlines limit source.old source.new desk.old desk.new result }
    ensures sparing { result ≡ statuses.Memory → S.left source.new ≡ S.left source.old }
{
    let Ok(mut buffer) = LineBuffer::new(alloc) else {
        return Status::Memory;
    };
    match Session::start(alloc, desk) {
        Ok(mut session) => run_lines(&mut session, alloc, &mut buffer, source, desk, limit),
        Err(status) => status,
    }
}

// Opens the store of the desk, and runs the records of the source on it.
fn run_csv<D: Desk, S: Source>(alloc: Global, source: &mut S, desk: &mut D, limit: u64) -> Status
    ensures ran { RanStore D.Storage S.Source (once_taken lines_of) limit source.old source.new desk.old desk.new
        result }
    ensures unrun { IsCutShort result → OnlyReads D.Storage desk.old desk.new }
{
    match Session::start(alloc, desk) {
        Ok(mut session) => run_records(&mut session, alloc, source, desk, limit),
        Err(status) => status,
    }
}
