// What is answered to a line, and the reply that it lends; and why a line isn't answered.
ghost use Rattle.std.specs.Prelude.{◌≡◌};
ghost use Rattle.va_lang.specs.Reply.{LendsLine};
ghost use Rattle.va_lang.specs.SaidReply as replies;
ghost use Rattle.va_serve.specs.Answers.{said_answer};
ghost use Rattle.va_serve.specs.Answers as answers;
ghost use Rattle.va_serve.specs.Session.{lent_in};

use crate::certificate::CertificateText;
use crate::workspace::Workspace;
use va_core::{Pair, Pairs, Shape};
use va_lang::{Reply, Why};

/// What is answered to a line. It owns what its reply lends, but for a vector and the marks, which stand in the
/// workspace.
#[derive(Drop)]
pub enum Answer {
    Created,
    Placed(u32),
    Deleted(u32),
    Vector,
    /// The shape, how many vectors are live, how many cursors are open, and what is being built: nothing, or the last
    /// id that was converted or none.
    Stat(Shape, u32, u32, Option<Option<u32>>),
    Marks,
    /// The pairs, how many vectors were fetched, how many were candidates, and how many are live.
    Near(Pairs, u32, u32, u32),
    /// The pairs, how many vectors were fetched, and how many are live; of a scan, and of a search within a radius.
    Scanned(Pairs, u32, u32),
    Within(Pairs, u32, u32),
    /// How many vectors a new cursor ranks.
    Opened(u32),
    /// The next pair of a cursor, and how many vectors were fetched for it.
    Next(Pair, u32),
    End,
    Closed,
    /// How many vectors are live, of which marks are being built.
    Begun(u32),
    /// How many ids were converted, and how many are left.
    More(u32, u32),
    /// How many ids were converted; none is left, and the new marks are the marks.
    Switched(u32),
    Certificate(CertificateText),
    Refused(Why),
}

impl Answer {
    /// The reply, which lends the vector that was read last and the marks of the store, if there is one.
    pub fn reply<'a>(&'a self, work: &'a Option<Workspace>) -> Reply<'a>
        ensures says { replies.said result ≡ said_answer self.now (lent_in work.now) }
        ensures lends { LendsLine (replies.said result) }
    {
        match self {
            Answer::Created => Reply::Created,
            Answer::Placed(place) => Reply::Placed { place: *place },
            Answer::Deleted(place) => Reply::Deleted { place: *place },
            Answer::Vector => Reply::Vector {
                vector: last_vector(work),
            },
            Answer::Stat(shape, live, cursors, building) => Reply::Stat {
                shape: *shape,
                live: *live,
                cursors: *cursors,
                building: *building,
            },
            Answer::Marks => marks_reply(work),
            Answer::Near(pairs, fetched, candidates, live) => Reply::Near {
                pairs: pairs.as_slice(),
                fetched: *fetched,
                candidates: *candidates,
                live: *live,
            },
            Answer::Scanned(pairs, fetched, live) => Reply::Scanned {
                pairs: pairs.as_slice(),
                fetched: *fetched,
                live: *live,
            },
            Answer::Within(pairs, fetched, live) => Reply::Within {
                pairs: pairs.as_slice(),
                fetched: *fetched,
                live: *live,
            },
            Answer::Opened(live) => Reply::Opened { live: *live },
            Answer::Next(pair, fetched) => Reply::Next {
                pair: *pair,
                fetched: *fetched,
            },
            Answer::End => Reply::End,
            Answer::Closed => Reply::Closed,
            Answer::Begun(live) => Reply::Building { live: *live },
            Answer::More(done, left) => Reply::More {
                done: *done,
                left: *left,
            },
            Answer::Switched(done) => Reply::Switched { done: *done },
            Answer::Certificate(text) => Reply::Cert {
                text: text.as_str(),
            },
            Answer::Refused(why) => Reply::Error { why: *why },
        }
    }
}

/// Why a command isn't carried out to its end, which ends the run.
#[derive(Clone, Copy)]
pub enum CommandFault {
    /// A call of the disk failed.
    Disk,
    /// The distance of the vector in a place lies outside the bounds of its stored cell.
    Mismatch {
        place: u32,
        dist: u64,
        low: u64,
        high: u64,
    },
    /// A scan met in a live place a code that names no cell.
    Changed {
        place: u32,
    },
}

// The vector that was read last; none without a store.
fn last_vector(work: &Option<Workspace>) -> &[u8]
    ensures { result.now ≡ (lent_in work.now).vector }
{
    match work {
        Some(work) => work.last_vector(),
        None => &[],
    }
}

// The marks of the store, if there is one.
fn marks_reply(work: &Option<Workspace>) -> Reply<'_>
    ensures says { replies.said result ≡ answers.marks_reply (lent_in work.now).marks }
    ensures lends { LendsLine (replies.said result) }
{
    match work {
        Some(work) => Reply::Marks {
            marks: work.store.marks(),
        },
        None => Reply::Error { why: Why::NoStore },
    }
}
