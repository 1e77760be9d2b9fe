// Why a certificate is refused.
ghost use Rattle.std.specs.Prelude.{Some};
ghost use Rattle.va_check.specs.Texts.{part_text, refusal_text};

use std::fmt::{self, Display, Formatter, Write};

/// The part of a certificate that isn't well formed; a box or an entry by its position.
#[derive(Clone, Copy, Debug, PartialEq, Eq)]
pub enum Part {
    K,
    Weights,
    Objects,
    Boxes(u32),
    Fetched(u32),
}

/// Why a certificate is refused.
#[derive(Clone, Copy, Debug, PartialEq, Eq)]
pub enum Refusal {
    Form(Part),
    /// The fetched vector of this id isn't in its box.
    Outside(u32),
    /// The substitute of this id isn't in its box.
    SubOutside(u32),
    /// The answer and the known list differ at this position.
    Answer(u32),
    /// What this id has wasn't fetched, and may come into the answer.
    Undetermined(u32),
    /// The substitute of this id leaves the known list as it is.
    Needless(u32),
    Memory,
}

impl Display for Part {
    ghost output = { λ part. Some (part_text part) };

    fn fmt<W: Write>(&self, f: &mut Formatter<W>) -> fmt::Result {
        match self {
            Part::K => f.write_str("k"),
            Part::Weights => f.write_str("weights"),
            Part::Objects => f.write_str("objects"),
            Part::Boxes(position) => write!(f, "boxes {position}"),
            Part::Fetched(position) => write!(f, "fetched {position}"),
        }
    }
}

impl Display for Refusal {
    ghost output = { λ refusal. Some (refusal_text refusal) };

    fn fmt<W: Write>(&self, f: &mut Formatter<W>) -> fmt::Result {
        match self {
            Refusal::Form(part) => write!(f, "form {part}"),
            Refusal::Outside(id) => write!(f, "outside {id}"),
            Refusal::SubOutside(id) => write!(f, "substitute {id}"),
            Refusal::Answer(position) => write!(f, "answer {position}"),
            Refusal::Undetermined(id) => write!(f, "undetermined {id}"),
            Refusal::Needless(id) => write!(f, "needless {id}"),
            Refusal::Memory => f.write_str("no memory"),
        }
    }
}
