// Parts of a text and numbers, as lines spell them.
ghost use Rattle.std.specs.Prelude.{◌≡◌, ◌<◌, ◌≤◌, ◌^◌, ◌∷◌, [], length, IfSome, if◌then◌else◌, Some, None, nat_lt, ◌&&◌};
ghost use Rattle.va_lang.specs.Grammar as grammar;
ghost use Rattle.va_lang.specs.SaidCommand.{parts_after};
ghost use Rattle.va_lang.specs.Texts.{split_at};

// What stands before the first separator, and what follows it, if there is one.
pub(crate) fn first_part(bytes: &[u8], separator: u8) -> (&[u8], Option<&[u8]>)
    ensures parts { split_at separator bytes.now ≡ result.0.now ∷ parts_after separator result.1 }
    ensures shorter { IfSome result.1 (λ rest. length rest.now < length bytes.now) }
{
    let mut at = 0;
    while at < bytes.len() {
        if bytes[at] == separator {
            return (&bytes[..at], Some(&bytes[at + 1..]));
        }
        at += 1;
    }
    (bytes, None)
}

// The number that digits stand for, if they are digits and it fits.
fn digits_value(text: &[u8]) -> Option<u64>
    ensures { result ≡ (if grammar.all_digits text.now && nat_lt (grammar.value_after 0 text.now) (2 ^ 64) then Some (grammar.value_after 0 text.now) else None) }
{
    let mut value: u64 = 0;
    let mut rest = text;
    while let [digit, after @ ..] = rest {
        if *digit < b'0' || *digit > b'9' {
            return None;
        }
        let Some(tens) = value.checked_mul(10) else {
            return None;
        };
        let Some(next) = tens.checked_add(u64::from(*digit - b'0')) else {
            return None;
        };
        value = next;
        rest = after;
    }
    Some(value)
}

// Whether the text has no zero before other digits, and isn't empty.
fn has_one_form(text: &[u8]) -> bool
    ensures { result ≡ grammar.has_one_form text.now }
{
    match text {
        [] => false,
        [_] => true,
        [first, _, ..] => *first != b'0',
    }
}

// The number below the limit that the text is, if it is one.
pub(crate) fn number_below(text: &[u8], limit: u64) -> Option<u64>
    ensures { result ≡ grammar.number_below limit text.now }
{
    if !has_one_form(text) {
        return None;
    }
    match digits_value(text) {
        Some(value) if value < limit => Some(value),
        _ => None,
    }
}

pub(crate) fn read_u64(text: &[u8]) -> Option<u64>
    ensures { result ≡ grammar.number_below (2 ^ 64) text.now }
{
    if has_one_form(text) {
        digits_value(text)
    } else {
        None
    }
}

pub(crate) fn read_u8(text: &[u8]) -> Option<u8>
    ensures { result ≡ grammar.number_below (2 ^ 8) text.now }
{
    let number = number_below(text, 1 << 8)?;
    Some(number as u8)
}

pub(crate) fn read_u16(text: &[u8]) -> Option<u16>
    ensures { result ≡ grammar.number_below (2 ^ 16) text.now }
{
    let number = number_below(text, 1 << 16)?;
    Some(number as u16)
}

pub(crate) fn read_u32(text: &[u8]) -> Option<u32>
    ensures { result ≡ grammar.number_below (2 ^ 32) text.now }
{
    let number = number_below(text, 1 << 32)?;
    Some(number as u32)
}
