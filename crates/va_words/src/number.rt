// The number behind an option.
ghost use Rattle.std.specs.Prelude.{◌≡◌};
ghost use Rattle.va_words.specs.Options.{begins_above_zero};
ghost use Rattle.va_words.specs.Words.{number_to};

fn begins_above_zero(text: &[u8]) -> bool
    ensures { result ≡ begins_above_zero text.now }
{
    matches!(text, [b'1'..=b'9', ..])
}

// The number from 1 to `most` that the text is the numeral of, if it is one.
pub(crate) fn number(text: &str, most: u32) -> Option<u32>
    ensures { result ≡ number_to most text.now }
{
    // The parser of std takes a plus sign and leading zeros.
    if !begins_above_zero(text.as_bytes()) {
        return None;
    }
    let Ok(number) = text.parse::<u32>() else {
        return None;
    };
    if number <= most { Some(number) } else { None }
}
