// Lines that are commands.
ghost use Rattle.std.specs.Prelude.{◌≡◌, ◌∷◌, ◌^◌, None};
ghost use Rattle.std.specs.Str.{bytes_eq};
ghost use Rattle.va_lang.specs.Command as asked;
ghost use Rattle.va_lang.specs.Grammar as grammar;
ghost use Rattle.va_lang.specs.Room as rooms;
ghost use Rattle.va_lang.specs.SaidCommand.{asked_for, found, meant, parts_after, said, text_in};

use crate::numbers::{first_part, number_below, read_u16, read_u32, read_u64};
use crate::{Command, Room, Syntax};

/// The names of cursors are below this.
const CURSORS: u64 = 64;

/// Reads a line without its newline. Its vector or its query then stands in the room; after a refusal the
/// room holds anything. Takes no memory.
pub fn parse(line: &[u8], room: &mut Room) -> Result<Command, Syntax>
    ensures { grammar.command_of line.now ≡ said result room.new }
{
    let (word, fields) = first_part(line, b' ');
    match store_command(word, fields, room) {
        Some(command) => Ok(command),
        None => Err(Syntax),
    }
}

// The command of a first word and of what follows it, by the tables of forms: those about the store and its places.
fn store_command(word: &[u8], fields: Option<&[u8]>, room: &mut Room) -> Option<Command>
    ensures { grammar.command_of_words (word.now ∷ parts_after 32 fields.entry) ≡ found result room.new }
{
    if is(word, "create") {
        return read_create(fields);
    }
    if is(word, "insert") {
        return read_insert(fields, room);
    }
    if is(word, "delete") {
        let id = one_u32(fields)?;
        return Some(Command::Delete { id });
    }
    if is(word, "get") {
        let id = one_u32(fields)?;
        return Some(Command::Get { id });
    }
    if is(word, "stat") {
        return alone(Command::Stat, fields);
    }
    if is(word, "marks") {
        return alone(Command::Marks, fields);
    }
    search_command(word, fields, room)
}

// The searches.
fn search_command(word: &[u8], fields: Option<&[u8]>, room: &mut Room) -> Option<Command>
    ensures { grammar.read_by grammar.search_forms word.now (parts_after 32 fields.entry)
        (grammar.read_by grammar.session_forms word.now (parts_after 32 fields.entry) None) ≡ found result room.new }
{
    if is(word, "knn") {
        let k = read_u16(text_and_query(fields, room)?)?;
        return Some(Command::Knn { k });
    }
    if is(word, "ssa") {
        let k = read_u16(text_and_query(fields, room)?)?;
        return Some(Command::Ssa { k });
    }
    if is(word, "range") {
        let radius = read_u64(text_and_query(fields, room)?)?;
        return Some(Command::Range { radius });
    }
    if is(word, "cert") {
        let k = read_u16(text_and_query(fields, room)?)?;
        return Some(Command::Cert { k });
    }
    session_command(word, fields, room)
}

// The cursors and the building.
fn session_command(word: &[u8], fields: Option<&[u8]>, room: &mut Room) -> Option<Command>
    ensures { grammar.read_by grammar.session_forms word.now (parts_after 32 fields.entry) None ≡ found result room.new }
{
    if is(word, "open") {
        let name = read_name(text_and_query(fields, room)?)?;
        return Some(Command::Open { name });
    }
    if is(word, "next") {
        let name = one_name(fields)?;
        return Some(Command::Next { name });
    }
    if is(word, "close") {
        let name = one_name(fields)?;
        return Some(Command::Close { name });
    }
    if is(word, "requant") {
        return alone(Command::Requant, fields);
    }
    if is(word, "convert") {
        return read_convert(fields);
    }
    None
}

// A command without fields, which needs no room.
fn alone(command: Command, fields: Option<&[u8]>) -> Option<Command>
    ensures { (room : rooms.Room) → grammar.alone (meant command room) (parts_after 32 fields.entry) ≡ found result room }
{
    match fields {
        None => Some(command),
        Some(_) => None,
    }
}

// The one word there, if there is just one.
fn sole(fields: Option<&[u8]>) -> Option<&[u8]>
    ensures { grammar.sole (parts_after 32 fields.entry) ≡ text_in result }
{
    let Some(words) = fields else {
        return None;
    };
    let (word, more) = first_part(words, b' ');
    match more {
        None => Some(word),
        Some(_) => None,
    }
}

fn one_u32(fields: Option<&[u8]>) -> Option<u32>
    ensures { result ≡ grammar.number_in (2 ^ 32) (grammar.sole (parts_after 32 fields.entry)) }
{
    read_u32(sole(fields)?)
}

fn one_name(fields: Option<&[u8]>) -> Option<u8>
    ensures { result ≡ grammar.number_in 64 (grammar.sole (parts_after 32 fields.entry)) }
{
    read_name(sole(fields)?)
}

// A number's text, where a query is read behind it.
fn text_and_query<'a>(fields: Option<&'a [u8]>, room: &mut Room) -> Option<&'a [u8]>
    ensures { grammar.text_and_query (parts_after 32 fields.entry) ≡ asked_for result room.new }
{
    let (text, words) = first_part(fields?, b' ');
    if room.read_query(words) {
        Some(text)
    } else {
        None
    }
}

fn read_create(fields: Option<&[u8]>) -> Option<Command>
    ensures { (room : rooms.Room) → grammar.creating (parts_after 32 fields.entry) ≡ found result room }
{
    let (one, words) = first_part(fields?, b' ');
    let (two, words) = first_part(words?, b' ');
    let three = sole(words)?;
    Some(Command::Create {
        dims: read_u16(one)?,
        bits: read_u16(two)?,
        capacity: read_u32(three)?,
    })
}

fn read_insert(fields: Option<&[u8]>, room: &mut Room) -> Option<Command>
    ensures { grammar.inserting (parts_after 32 fields.entry) ≡ found result room.new }
{
    let (one, words) = first_part(fields?, b' ');
    let two = sole(words)?;
    let id = read_u32(one)?;
    if room.read_vector(two) {
        Some(Command::Insert { id })
    } else {
        None
    }
}

fn read_convert(fields: Option<&[u8]>) -> Option<Command>
    ensures { (room : rooms.Room) → grammar.counted (2 ^ 32) (λ n. asked.convert n) (parts_after 32 fields.entry) ≡ found result room }
{
    let n = one_u32(fields)?;
    if n == 0 {
        None
    } else {
        Some(Command::Convert { n })
    }
}

// The name of a cursor.
fn read_name(text: &[u8]) -> Option<u8>
    ensures { result ≡ grammar.number_below 64 text.now }
{
    let name = number_below(text, CURSORS)?;
    Some(name as u8)
}

// Whether the word is this text.
fn is(word: &[u8], text: &str) -> bool
    ensures { result ≡ bytes_eq word.now text.now }
{
    word == text.as_bytes()
}
