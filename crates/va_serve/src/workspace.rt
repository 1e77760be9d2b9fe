// What commands act on beside the disk.
ghost use Rattle.std.specs.Prelude.{◌≡◌, IfOk, replicate};
ghost use Rattle.va_serve.specs.Held.{none_open};
ghost use Rattle.va_serve.specs.Session.{lent_by};

use std::alloc::Global;
use std::marker::Model;
use va_core::Memory;
use va_cursor::Cursor;
use va_store::Store;

// The bytes of the longest vector.
const LONGEST_VECTOR: usize = 256;

/// How many cursors may be open.
pub const MOST_CURSORS: usize = 64;

/// What commands act on beside the disk, once there is a store: the store, the cursors by their names, by how many of
/// them each place is held back, and the bytes that a vector is read into. What a later command keeps between two lines
/// stands here.
#[derive(Drop)]
pub struct Workspace {
    pub(crate) store: Store,
    pub(crate) cursors: Vec<Option<Cursor>>,
    pub(crate) held: Vec<u8>,
    pub(crate) vector: Vec<u8>,
}

impl Model for Workspace {
    ghost use Rattle.va_serve.specs.Session as seen;

    ghost Value = { seen.Workspace };

    ghost view = { λ work. record { store = work.store; cursors = work.cursors.items; vector = work.vector.items } };

    ghost invariant = { λ work. seen.IsWorkspace work.store work.cursors.items work.held.items work.vector.items };
}

/// The rooms of a workspace: for the names of cursors, of which none is open, for how often each place is held back,
/// which none is, and for a vector.
#[derive(Drop)]
pub struct Rooms {
    pub(crate) cursors: Vec<Option<Cursor>>,
    pub(crate) held: Vec<u8>,
    pub(crate) vector: Vec<u8>,
}

impl Rooms {
    /// The rooms over so many places.
    pub fn new(alloc: Global, capacity: u32) -> Result<Rooms, Memory>
        ensures { IfOk result (λ rooms. (rooms.cursors.items ≡ none_open) × (rooms.held.items ≡ replicate capacity 0)
            × (rooms.vector.items ≡ replicate 256 0)) }
    {
        let cursors = names(alloc)?;
        let Ok(held) = vec![in alloc; 0u8; capacity as usize] else {
            return Err(Memory);
        };
        match vec![in alloc; 0u8; LONGEST_VECTOR] {
            Ok(vector) => Ok(Rooms {
                cursors,
                held,
                vector,
            }),
            Err(_) => Err(Memory),
        }
    }

    /// The workspace over a store, in these rooms.
    pub fn over(self, store: Store) -> Workspace
        requires cursors { self.cursors.items ≡ none_open }
        requires held { self.held.items ≡ replicate store.shape.capacity 0 }
        requires vector { self.vector.items ≡ replicate 256 0 }
        ensures { result ≡ record { store = store; cursors = none_open; vector = self.vector.items } }
    {
        Workspace {
            store,
            cursors: self.cursors,
            held: self.held,
            vector: self.vector,
        }
    }
}

// The names of cursors, under none of which one is open.
fn names(alloc: Global) -> Result<Vec<Option<Cursor>>, Memory>
    ensures { IfOk result (λ cursors. cursors.items ≡ none_open) }
{
    let Ok(mut cursors) = Vec::with_capacity(alloc, MOST_CURSORS) else {
        return Err(Memory);
    };
    for _ in 0..MOST_CURSORS {
        cursors.push_reserved(None);
    }
    Ok(cursors)
}

impl Workspace {
    /// The vector that was read last.
    pub fn last_vector(&self) -> &[u8]
        ensures { result.now ≡ (lent_by self.now).vector }
    {
        &self.vector[..usize::from(self.store.shape().dims())]
    }
}
