// What a source is judged.
ghost use Rattle.std.specs.Prelude.{◌≡◌, Some};
ghost use Rattle.va_check.specs.Texts.{judged_text, judged_code};

use crate::Refusal;
use std::fmt::{self, Display, Formatter, Write};
use va_cert::FormFault;

/// What the bytes of a source are judged.
#[derive(Clone, Copy, Debug, PartialEq, Eq)]
pub enum Judged {
    /// They are the text of a certificate that is accepted, so it is sound.
    Accepted,
    /// They are the text of a certificate that is refused, never for want of memory.
    Refused(Refusal),
    /// They are no certificate's text, never for want of memory.
    Unread(FormFault),
    /// The source failed.
    ReadFault,
    /// There are more bytes than are taken.
    TooLong,
    Memory,
}

impl Judged {
    /// The exit code of a program that judges.
    pub fn code(&self) -> u8
        ensures { result ≡ judged_code self.now }
    {
        match self {
            Judged::Accepted => 0,
            Judged::Refused(_) | Judged::Unread(_) => 1,
            Judged::ReadFault => 3,
            Judged::Memory => 7,
            Judged::TooLong => 8,
        }
    }
}

impl Display for Judged {
    ghost output = { λ judged. Some (judged_text judged) };

    fn fmt<W: Write>(&self, f: &mut Formatter<W>) -> fmt::Result {
        match self {
            Judged::Accepted => f.write_str("accepted"),
            Judged::Refused(refusal) => write!(f, "refused: {refusal}"),
            Judged::Unread(fault) => write!(f, "refused: {fault}"),
            Judged::ReadFault => f.write_str("read fault"),
            Judged::TooLong => f.write_str("input too long"),
            Judged::Memory => f.write_str("no memory"),
        }
    }
}
