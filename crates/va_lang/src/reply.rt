// What is answered to a line.
ghost use Rattle.std.specs.Prelude.{◌≡◌, Some};
ghost use Rattle.va_lang.specs.Reply.{why_text};

use std::fmt::{self, Display, Formatter, Write};
use va_core::{Pair, Shape};
use va_marks::Marks;

/// Why a line is refused.
#[derive(Clone, Copy, Debug, PartialEq, Eq)]
pub enum Why {
    /// The line has more than 65,535 bytes.
    Long,
    /// The line isn't in the grammar.
    Syntax,
    /// There is no store yet.
    NoStore,
    /// There is a store already.
    Exists,
    /// The numbers are no shape.
    Shape,
    /// A vector, an object or the weights haven't as many numbers as the store has dimensions.
    Length,
    /// The id is live.
    Duplicate,
    /// Each place is live or held.
    Full,
    /// The id isn't live.
    Unknown,
    /// `k` isn't 1 to 4,096.
    K,
    /// A building runs.
    Busy,
    /// No building runs.
    Idle,
    /// The cursor is open where it may not be, or isn't where it has to be.
    Cursor,
    /// More than 4,096 ids are live.
    Limit,
    /// No memory was found.
    Memory,
}

impl Why {
    // The one word that says it.
    pub(crate) fn word(self) -> &'static str
        ensures { result.now ≡ why_text self }
    {
        match self {
            Why::Long => "long",
            Why::Syntax => "syntax",
            Why::NoStore => "no-store",
            Why::Exists => "exists",
            Why::Shape => "shape",
            Why::Length => "length",
            Why::Duplicate => "duplicate",
            Why::Full => "full",
            Why::Unknown => "unknown",
            Why::K => "k",
            Why::Busy => "busy",
            Why::Idle => "idle",
            Why::Cursor => "cursor",
            Why::Limit => "limit",
            Why::Memory => "memory",
        }
    }
}

impl Display for Why {
    ghost output = { λ why. Some (why_text why) };

    fn fmt<W: Write>(&self, f: &mut Formatter<W>) -> fmt::Result {
        f.write_str(self.word())
    }
}

/// A reply, which is one line.
#[derive(Clone, Copy)]
pub enum Reply<'a> {
    /// The store was made.
    Created,
    /// The vector stands at this place.
    Placed {
        place: u32,
    },
    /// The vector that stood at this place is gone.
    Deleted {
        place: u32,
    },
    /// The coordinates of a vector.
    Vector {
        vector: &'a [u8],
    },
    /// The state: how many vectors are live, how many cursors are open, and whether a building runs, with the
    /// last id that it converted.
    Stat {
        shape: Shape,
        live: u32,
        cursors: u32,
        building: Option<Option<u32>>,
    },
    /// The marks by which the vectors are approximated.
    Marks {
        marks: &'a Marks,
    },
    /// The nearest, in order: how many vectors were fetched for them, how many were candidates, and how many are live.
    Near {
        pairs: &'a [Pair],
        fetched: u32,
        candidates: u32,
        live: u32,
    },
    /// The nearest, in order, by a scan: how many vectors were fetched for them, and how many are live.
    Scanned {
        pairs: &'a [Pair],
        fetched: u32,
        live: u32,
    },
    /// What lies within the radius, in order: how many vectors were fetched for it, and how many are live.
    Within {
        pairs: &'a [Pair],
        fetched: u32,
        live: u32,
    },
    /// A cursor was opened over so many live vectors.
    Opened {
        live: u32,
    },
    /// The next pair of a cursor, and how many vectors were fetched for it.
    Next {
        pair: Pair,
        fetched: u32,
    },
    /// The cursor has given all its pairs.
    End,
    /// The cursor is gone.
    Closed,
    /// A building began over so many live vectors.
    Building {
        live: u32,
    },
    /// So many ids were converted, and so many are left.
    More {
        done: u32,
        left: u32,
    },
    /// So many ids were converted, which were the last, and the new marks count.
    Switched {
        done: u32,
    },
    /// The certificate of a search, whose text is one line.
    Cert {
        text: &'a str,
    },
    /// What the searches of the work mode came to: the sums of fetched vectors, of candidates and of distances.
    Work {
        n: u32,
        fetched: u64,
        candidates: u64,
        sum: u64,
    },
    /// The line was refused.
    Error {
        why: Why,
    },
}
