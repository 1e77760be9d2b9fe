// Bytes that wait to be given together.
ghost use Rattle.std.specs.Prelude.{◌≡◌, ◌+◌, ◌^◌, ◌<◌, ◌≤◌, ◌++◌, ◌∷◌, List, ℕ, [], length, take, decimal};
ghost use Rattle.va_lang.specs.Reply.{pair_text};

use itoa::Buffer;
use std::marker::Model;
use va_core::Pair;

/// So many bytes of a reply with a long part are gathered on the stack.
pub(crate) const LONG: usize = 4096;

// The bytes of a reply that were not given yet, so many at most.
#[derive(Drop)]
pub(crate) struct Gathered<const ROOM: usize> {
    bytes: [u8; ROOM],
    count: usize,
}

impl<const ROOM: usize> Model for Gathered<ROOM> {
    ghost Value = { List ℕ };

    ghost view = { λ gathered. take gathered.count gathered.bytes };

    ghost invariant = { λ gathered. gathered.count ≤ ROOM };
}

impl<const ROOM: usize> Gathered<ROOM> {
    pub(crate) fn new() -> Gathered<ROOM>
        ensures { result ≡ [] }
    {
        Gathered {
            bytes: [0; ROOM],
            count: 0,
        }
    }

    pub(crate) fn len(&self) -> usize
        ensures { result ≡ length self.now }
    {
        self.count
    }

    pub(crate) fn as_slice(&self) -> &[u8]
        ensures { result.now ≡ self.now }
    {
        &self.bytes[..self.count]
    }

    pub(crate) fn clear(&mut self)
        ensures { self.new ≡ [] }
    {
        self.count = 0;
    }

    pub(crate) fn push(&mut self, text: &[u8])
        requires { length self.old + length text.now ≤ ROOM }
        ensures { self.new ≡ self.old ++ text.now }
    {
        let end = self.count + text.len();
        let room = &mut self.bytes[..];
        room[self.count..end].copy_from_slice(text);
        self.count = end;
    }

    pub(crate) fn push_number(&mut self, number: u64)
        requires { length self.old + 20 ≤ ROOM }
        ensures text { self.new ≡ self.old ++ decimal number }
        ensures short { length self.new ≤ length self.old + 20 }
    {
        let mut buffer = Buffer::new();
        self.push(buffer.format(number).as_bytes());
    }
}

// What is gathered one by one: each takes 42 bytes at most.
pub(crate) trait Piece: Copy {
    ghost text: { Self → List ℕ };

    fn push_to(self, line: &mut Gathered<LONG>)
        requires { length line.old + 42 ≤ 4096 }
        ensures text { line.new ≡ line.old ++ text self }
        ensures short { length line.new ≤ length line.old + 42 };
}

impl Piece for Pair {
    ghost text = { λ pair. pair_text pair };

    fn push_to(self, line: &mut Gathered<LONG>) {
        line.push(b" ");
        line.push_number(u64::from(self.id));
        line.push(b":");
        line.push_number(self.dist);
    }
}

// A mark behind another.
impl Piece for u16 {
    ghost text = { λ mark. 44 ∷ decimal mark };

    fn push_to(self, line: &mut Gathered<LONG>) {
        line.push(b",");
        line.push_number(u64::from(self));
    }
}

// A coordinate behind another.
impl Piece for u8 {
    ghost text = { λ coordinate. 44 ∷ decimal coordinate };

    fn push_to(self, line: &mut Gathered<LONG>) {
        line.push(b",");
        line.push_number(u64::from(self));
    }
}
