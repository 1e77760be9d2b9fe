// Replies, given in few calls.
ghost use Rattle.std.specs.Prelude.{◌≡◌, ◌+◌, ◌≤◌, ◌++◌, [], true, false, length, OnOk, OnErr};
ghost use Rattle.std.specs.List.{flat_map};
ghost use Rattle.va_disk.specs.Frames.{OnlyGives, SinkFails};
ghost use Rattle.va_disk.specs.Told.{Gives, GivesPart};
ghost use Rattle.va_lang.specs.Gathering.{Gathers, has_middle, head_text, middle_text, tail_text};
ghost use Rattle.va_lang.specs.Reply.{count_text, filtered_text, read_text, reply_text, reply_line, row_text};
ghost use Rattle.va_lang.specs.Reply as replies;
ghost use Rattle.va_lang.specs.Spelling.{list_text};
ghost use Rattle.va_lang.specs.SaidReply.{said};

use crate::Reply;
use crate::gathered::{Gathered, LONG, Piece};
use va_core::{Pair, Shape};
use va_disk::{Desk, SinkFault, give_all};
use va_marks::Marks;

/// The room of a reply without a long part: a short one, since it is cleared for each reply.
const SHORT: usize = 320;

/// So many gathered bytes are given before the next piece comes.
const ENOUGH: usize = 3900;

/// Gives the line of the reply with its newline. After a fault a proper prefix of the line was given.
/// Takes no memory.
pub fn send<D: Desk>(desk: &mut D, reply: &Reply<'_>) -> Result<(), SinkFault>
    ensures given { OnOk result (Gives D.told (D.given desk.old) (reply_line (said reply.now)) (D.given desk.new)) }
    ensures part { OnErr result (GivesPart D.told (D.given desk.old) (reply_line (said reply.now)) (D.given desk.new)) }
    ensures frame { OnlyGives D.Storage (reply_line (said reply.now)) desk.old desk.new }
    ensures cause { SinkFails D.Storage desk.old desk.new result }
{
    if has_middle(reply) {
        send_long(desk, reply)
    } else {
        send_short(desk, reply)
    }
}

// Whether there is a part in the reply that is as long as it may be: a list, or a text.
fn has_middle(reply: &Reply<'_>) -> bool
    ensures { result ≡ has_middle (said reply.now) }
{
    matches!(
        reply,
        Reply::Vector { .. }
            | Reply::Marks { .. }
            | Reply::Near { .. }
            | Reply::Scanned { .. }
            | Reply::Within { .. }
            | Reply::Cert { .. }
    )
}

// A reply without a long part is given at once.
fn send_short<D: Desk>(desk: &mut D, reply: &Reply<'_>) -> Result<(), SinkFault>
    requires { has_middle (said reply.now) ≡ false }
    ensures given { OnOk result (Gives D.told (D.given desk.old) (reply_line (said reply.now)) (D.given desk.new)) }
    ensures part { OnErr result (GivesPart D.told (D.given desk.old) (reply_line (said reply.now)) (D.given desk.new)) }
    ensures frame { OnlyGives D.Storage (reply_line (said reply.now)) desk.old desk.new }
    ensures cause { SinkFails D.Storage desk.old desk.new result }
{
    let mut line = Gathered::<SHORT>::new();
    push_head(&mut line, reply);
    line.push(b"\n");
    give_all(desk, line.as_slice())
}

// A reply with one is gathered piece by piece, and given whenever enough has come together.
fn send_long<D: Desk>(desk: &mut D, reply: &Reply<'_>) -> Result<(), SinkFault>
    requires { has_middle (said reply.now) ≡ true }
    ensures given { OnOk result (Gives D.told (D.given desk.old) (reply_line (said reply.now)) (D.given desk.new)) }
    ensures part { OnErr result (GivesPart D.told (D.given desk.old) (reply_line (said reply.now)) (D.given desk.new)) }
    ensures frame { OnlyGives D.Storage (reply_line (said reply.now)) desk.old desk.new }
    ensures cause { SinkFails D.Storage desk.old desk.new result }
{
    let mut line = Gathered::<LONG>::new();
    push_head(&mut line, reply);
    gather_middle(desk, &mut line, reply)?;
    push_tail(&mut line, reply);
    give_all(desk, line.as_slice())
}

// What stands before the long part of a reply.
fn push_head<const ROOM: usize>(line: &mut Gathered<ROOM>, reply: &Reply<'_>)
    requires empty { line.old ≡ [] }
    requires room { 320 ≤ ROOM }
    ensures text { line.new ≡ head_text (said reply.now) }
    ensures short { length line.new ≤ 300 }
{
    match *reply {
        Reply::Created => line.push(b"created"),
        Reply::Placed { place } => push_count(line, b"placed ", u64::from(place)),
        Reply::Deleted { place } => push_count(line, b"deleted ", u64::from(place)),
        Reply::Vector { .. } => line.push(b"vector "),
        Reply::Stat {
            shape,
            live,
            cursors,
            building,
        } => push_state(line, shape, live, cursors, building),
        Reply::Marks { .. } => line.push(b"marks"),
        Reply::Near { .. } | Reply::Scanned { .. } => line.push(b"near"),
        Reply::Within { .. } => line.push(b"within"),
        Reply::Opened { live } => push_count(line, b"opened ", u64::from(live)),
        Reply::Next { pair, fetched } => push_next(line, pair, fetched),
        Reply::End => line.push(b"end"),
        Reply::Closed => line.push(b"closed"),
        Reply::Building { live } => push_count(line, b"building ", u64::from(live)),
        Reply::More { done, left } => {
            push_count(line, b"more ", u64::from(done));
            push_count(line, b" ", u64::from(left));
        }
        Reply::Switched { done } => push_count(line, b"switched ", u64::from(done)),
        Reply::Cert { .. } => line.push(b"cert "),
        Reply::Work {
            n,
            fetched,
            candidates,
            sum,
        } => push_work(line, n, fetched, candidates, sum),
        Reply::Error { why } => {
            line.push(b"error ");
            line.push(why.word().as_bytes());
        }
    }
}

// A number behind its word.
fn push_count<const ROOM: usize>(line: &mut Gathered<ROOM>, word: &[u8], count: u64)
    requires { length line.old + length word.now + 20 ≤ ROOM }
    ensures text { line.new ≡ line.old ++ count_text word.now count }
    ensures short { length line.new ≤ length line.old + length word.now + 20 }
{
    line.push(word);
    line.push_number(count);
}

// The text of the reply `Next`.
fn push_next<const ROOM: usize>(line: &mut Gathered<ROOM>, pair: Pair, fetched: u32)
    requires empty { line.old ≡ [] }
    requires room { 320 ≤ ROOM }
    ensures text { line.new ≡ reply_text (replies.next_pair pair fetched) }
    ensures short { length line.new ≤ 300 }
{
    line.push(b"next");
    push_count(line, b" ", u64::from(pair.id));
    push_count(line, b":", pair.dist);
    push_count(line, b" fetched ", u64::from(fetched));
}

// The text of the reply `Work`.
fn push_work<const ROOM: usize>(
    line: &mut Gathered<ROOM>,
    n: u32,
    fetched: u64,
    candidates: u64,
    sum: u64,
)
    requires empty { line.old ≡ [] }
    requires room { 320 ≤ ROOM }
    ensures text { line.new ≡ reply_text (replies.work n fetched candidates sum) }
    ensures short { length line.new ≤ 300 }
{
    push_count(line, b"work ", u64::from(n));
    push_count(line, b" fetched ", fetched);
    push_count(line, b" candidates ", candidates);
    push_count(line, b" sum ", sum);
}

// The text of the reply `Stat`.
fn push_state<const ROOM: usize>(
    line: &mut Gathered<ROOM>,
    shape: Shape,
    live: u32,
    cursors: u32,
    building: Option<Option<u32>>,
)
    requires empty { line.old ≡ [] }
    requires room { 320 ≤ ROOM }
    ensures text { line.new ≡ reply_text (replies.stat shape live cursors building) }
    ensures short { length line.new ≤ 300 }
{
    line.push(b"stat dims ");
    line.push_number(u64::from(shape.dims()));
    line.push(b" bits ");
    line.push_number(u64::from(shape.bits()));
    line.push(b" capacity ");
    line.push_number(u64::from(shape.capacity()));
    line.push(b" live ");
    line.push_number(u64::from(live));
    line.push(b" cursors ");
    line.push_number(u64::from(cursors));
    line.push(b" building ");
    match building {
        None => line.push(b"no"),
        Some(None) => line.push(b"yes"),
        Some(Some(id)) => line.push_number(u64::from(id)),
    }
}

// Gathers the long part of a reply behind what is gathered.
fn gather_middle<D: Desk>(
    desk: &mut D,
    line: &mut Gathered<LONG>,
    reply: &Reply<'_>,
) -> Result<(), SinkFault>
    requires { length line.old ≤ 300 }
    ensures given { OnOk result (Gathers D.told (D.given desk.old) (line.old ++ middle_text (said reply.now)) line.new (D.given desk.new)) }
    ensures room { OnOk result (length line.new ≤ 3942) }
    ensures part { OnErr result (GivesPart D.told (D.given desk.old) (line.old ++ middle_text (said reply.now)) (D.given desk.new)) }
    ensures frame { OnlyGives D.Storage (line.old ++ middle_text (said reply.now)) desk.old desk.new }
    ensures cause { SinkFails D.Storage desk.old desk.new result }
{
    match *reply {
        Reply::Vector { vector } => gather_vector(desk, line, vector),
        Reply::Marks { marks } => gather_rows(desk, line, marks),
        Reply::Near { pairs, .. } | Reply::Scanned { pairs, .. } | Reply::Within { pairs, .. } =>
            gather_each(desk, line, pairs),
        Reply::Cert { text } => give_text(desk, line, text.as_bytes()),
        Reply::Created
        | Reply::Placed { .. }
        | Reply::Deleted { .. }
        | Reply::Stat { .. }
        | Reply::Opened { .. }
        | Reply::Next { .. }
        | Reply::End
        | Reply::Closed
        | Reply::Building { .. }
        | Reply::More { .. }
        | Reply::Switched { .. }
        | Reply::Work { .. }
        | Reply::Error { .. } => Ok(()),
    }
}

// What stands behind the long part of a reply, with the newline.
fn push_tail(line: &mut Gathered<LONG>, reply: &Reply<'_>)
    requires { length line.old ≤ 3942 }
    ensures { line.new ≡ line.old ++ tail_text (said reply.now) }
{
    match *reply {
        Reply::Near {
            fetched,
            candidates,
            live,
            ..
        } => push_filtered(line, fetched, candidates, live),
        Reply::Scanned { fetched, live, .. } => push_read(line, fetched, live),
        Reply::Within { fetched, live, .. } => push_read(line, fetched, live),
        _ => (),
    }
    line.push(b"\n");
}

// How much a search fetched, and of how many live vectors.
fn push_read(line: &mut Gathered<LONG>, fetched: u32, live: u32)
    requires { length line.old ≤ 3942 }
    ensures text { line.new ≡ line.old ++ read_text fetched live }
    ensures short { length line.new ≤ length line.old + 60 }
{
    push_count(line, b" fetched ", u64::from(fetched));
    push_count(line, b" live ", u64::from(live));
}

// The same with the candidates.
fn push_filtered(line: &mut Gathered<LONG>, fetched: u32, candidates: u32, live: u32)
    requires { length line.old ≤ 3942 }
    ensures text { line.new ≡ line.old ++ filtered_text fetched candidates live }
    ensures short { length line.new ≤ length line.old + 90 }
{
    push_count(line, b" fetched ", u64::from(fetched));
    push_count(line, b" candidates ", u64::from(candidates));
    push_count(line, b" live ", u64::from(live));
}

// Gives what is gathered, and then a text as it stands: it is long, and isn't copied.
fn give_text<D: Desk>(desk: &mut D, line: &mut Gathered<LONG>, text: &[u8]) -> Result<(), SinkFault>
    ensures given { OnOk result (Gathers D.told (D.given desk.old) (line.old ++ text.now) line.new (D.given desk.new)) }
    ensures room { OnOk result (length line.new ≤ 3942) }
    ensures part { OnErr result (GivesPart D.told (D.given desk.old) (line.old ++ text.now) (D.given desk.new)) }
    ensures frame { OnlyGives D.Storage (line.old ++ text.now) desk.old desk.new }
    ensures cause { SinkFails D.Storage desk.old desk.new result }
{
    give_all(desk, line.as_slice())?;
    line.clear();
    give_all(desk, text)
}

// Gathers the marks, row by row.
fn gather_rows<D: Desk>(
    desk: &mut D,
    line: &mut Gathered<LONG>,
    marks: &Marks,
) -> Result<(), SinkFault>
    requires { length line.old ≤ 3942 }
    ensures given { OnOk result (Gathers D.told (D.given desk.old) (line.old ++ flat_map row_text marks.now) line.new (D.given desk.new)) }
    ensures room { OnOk result (length line.new ≤ 3942) }
    ensures part { OnErr result (GivesPart D.told (D.given desk.old) (line.old ++ flat_map row_text marks.now) (D.given desk.new)) }
    ensures frame { OnlyGives D.Storage (line.old ++ flat_map row_text marks.now) desk.old desk.new }
    ensures cause { SinkFails D.Storage desk.old desk.new result }
{
    for dim in 0..marks.dims() {
        make_room(desk, line)?;
        gather_row(desk, line, marks.row(dim))?;
    }
    Ok(())
}

// Gathers the marks of a dimension behind those before.
fn gather_row<D: Desk>(
    desk: &mut D,
    line: &mut Gathered<LONG>,
    row: &[u16],
) -> Result<(), SinkFault>
    requires { length line.old ≤ 3900 }
    ensures given { OnOk result (Gathers D.told (D.given desk.old) (line.old ++ row_text row.now) line.new (D.given desk.new)) }
    ensures room { OnOk result (length line.new ≤ 3942) }
    ensures part { OnErr result (GivesPart D.told (D.given desk.old) (line.old ++ row_text row.now) (D.given desk.new)) }
    ensures frame { OnlyGives D.Storage (line.old ++ row_text row.now) desk.old desk.new }
    ensures cause { SinkFails D.Storage desk.old desk.new result }
{
    line.push(b" ");
    let [first, rest @ ..] = row else {
        return Ok(());
    };
    line.push_number(u64::from(*first));
    gather_each(desk, line, rest)
}

// Gathers coordinates with a comma between two.
fn gather_vector<D: Desk>(
    desk: &mut D,
    line: &mut Gathered<LONG>,
    vector: &[u8],
) -> Result<(), SinkFault>
    requires { length line.old ≤ 300 }
    ensures given { OnOk result (Gathers D.told (D.given desk.old) (line.old ++ list_text vector.now) line.new (D.given desk.new)) }
    ensures room { OnOk result (length line.new ≤ 3942) }
    ensures part { OnErr result (GivesPart D.told (D.given desk.old) (line.old ++ list_text vector.now) (D.given desk.new)) }
    ensures frame { OnlyGives D.Storage (line.old ++ list_text vector.now) desk.old desk.new }
    ensures cause { SinkFails D.Storage desk.old desk.new result }
{
    let [first, rest @ ..] = vector else {
        return Ok(());
    };
    line.push_number(u64::from(*first));
    gather_each(desk, line, rest)
}

// Gathers pieces behind what is gathered.
fn gather_each<D: Desk, P: Piece>(
    desk: &mut D,
    line: &mut Gathered<LONG>,
    pieces: &[P],
) -> Result<(), SinkFault>
    requires { length line.old ≤ 3942 }
    ensures given { OnOk result (Gathers D.told (D.given desk.old) (line.old ++ flat_map P.text pieces.now) line.new (D.given desk.new)) }
    ensures room { OnOk result (length line.new ≤ 3942) }
    ensures part { OnErr result (GivesPart D.told (D.given desk.old) (line.old ++ flat_map P.text pieces.now) (D.given desk.new)) }
    ensures frame { OnlyGives D.Storage (line.old ++ flat_map P.text pieces.now) desk.old desk.new }
    ensures cause { SinkFails D.Storage desk.old desk.new result }
{
    for piece in pieces {
        make_room(desk, line)?;
        (*piece).push_to(line);
    }
    Ok(())
}

// Gives what is gathered where enough of it has come together.
fn make_room<D: Desk>(desk: &mut D, line: &mut Gathered<LONG>) -> Result<(), SinkFault>
    ensures given { OnOk result (Gathers D.told (D.given desk.old) line.old line.new (D.given desk.new)) }
    ensures room { OnOk result (length line.new ≤ 3900) }
    ensures part { OnErr result (GivesPart D.told (D.given desk.old) line.old (D.given desk.new)) }
    ensures frame { OnlyGives D.Storage line.old desk.old desk.new }
    ensures cause { SinkFails D.Storage desk.old desk.new result }
{
    if line.len() > ENOUGH {
        give_all(desk, line.as_slice())?;
        line.clear();
    }
    Ok(())
}
