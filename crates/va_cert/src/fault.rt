// Why bytes are no certificate's text.
ghost use Rattle.std.specs.Prelude.{Some};
ghost use Rattle.va_cert.specs.Texts.{fault_text};

use std::fmt::{self, Display, Formatter, Write};

/// Why bytes aren't read as a certificate.
#[derive(Clone, Copy, Debug, PartialEq, Eq)]
pub enum FormFault {
    /// They aren't one JSON value.
    Text,
    /// The value hasn't the kinds of a certificate.
    Object,
    /// A number isn't whole, or out of its range.
    Number,
    Memory,
}

impl Display for FormFault {
    ghost output = { λ fault. Some (fault_text fault) };

    fn fmt<W: Write>(&self, f: &mut Formatter<W>) -> fmt::Result {
        f.write_str(match self {
            FormFault::Text => "text",
            FormFault::Object => "object",
            FormFault::Number => "number",
            FormFault::Memory => "no memory",
        })
    }
}
