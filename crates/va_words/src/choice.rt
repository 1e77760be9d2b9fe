// The mode of words.
ghost use Rattle.std.specs.Prelude.{◌≡◌, ◌≢◌, MatchResult, Some, None, map, string_bytes};
ghost use Rattle.clap.specs.Words.{kind_of};
ghost use Rattle.clap.specs.declared.error.kind.ErrorKind.TheVariants as kinds;
ghost use Rattle.va_words.specs.Options.{begins_with_dash, is_simple_use, names_option};
ghost use Rattle.va_words.specs.Words.{mode_of};
ghost use Rattle.va_words.specs.declared.form.WordsFault.TheVariants as faults;

use crate::form::{Mode, WordsFault};
use crate::options::{command, shown};
use clap::Error;
use clap::error::ErrorKind;
use std::alloc::Global;

// Where a word begins with a dash, a second one follows, and a name. A bare `--` would pass clap.
fn names_option(word: &[u8]) -> bool
    ensures { result ≡ names_option word.now }
{
    match word {
        [b'-', after @ ..] => matches!(after, [b'-', _, ..]),
        _ => true,
    }
}

fn begins_with_dash(word: &[u8]) -> bool
    ensures { result ≡ begins_with_dash word.now }
{
    matches!(word, [b'-', ..])
}

// Whether clap is asked, whose promise of a simple command is known for one option at most.
fn is_simple_use(words: &[String]) -> bool
    ensures { result ≡ is_simple_use (map string_bytes words.now) }
{
    match words {
        [] => true,
        [word] => names_option(word.as_bytes()),
        [name, value] => name.as_bytes() == b"--work".as_slice()
            && !begins_with_dash(value.as_bytes()),
        _ => false,
    }
}

// Want of memory is told as such, and all else is usage.
fn refusal(error: &Error) -> WordsFault
    ensures { result ≡ faults.Usage → kind_of error.now ≢ kinds.OutOfMemory }
{
    match error.kind() {
        ErrorKind::OutOfMemory => WordsFault::Memory,
        _ => WordsFault::Usage,
    }
}

/// The mode that the words ask for: no word, `--csv`, `--export`, and `--work` and N or `--work=N` with N from 1 to 20,000.
/// Usage exactly for every other list of words. Memory where there is no room for reading them.
pub fn mode(alloc: Global, words: &[String]) -> Result<Mode, WordsFault>
    ensures { MatchResult result (λ mode. mode_of (map string_bytes words.now) ≡ Some mode)
        (λ fault. fault ≡ faults.Usage → mode_of (map string_bytes words.now) ≡ None) }
{
    if !is_simple_use(words) {
        return Err(WordsFault::Usage);
    }
    let Ok(command) = command(alloc) else {
        return Err(WordsFault::Memory);
    };
    match command.try_get_matches_from(words) {
        Ok(matches) => shown(&matches).ok_or(WordsFault::Usage),
        Err(error) => Err(refusal(&error)),
    }
}
