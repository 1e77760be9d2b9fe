// What a line asks for.

/// A command. Its vector or its query stands in the [`Room`](crate::Room) that it was read into.
#[derive(Clone, Copy, Debug, PartialEq, Eq)]
pub enum Command {
    /// Makes a store of this shape, which may still be out of range.
    Create { dims: u16, bits: u16, capacity: u32 },
    /// Stores the vector of the room.
    Insert { id: u32 },
    /// Closes the place of an id.
    Delete { id: u32 },
    /// Asks for the vector of an id.
    Get { id: u32 },
    /// Asks for the state.
    Stat,
    /// Asks for the selected marks.
    Marks,
    /// Asks for the `k` vectors nearest to the query of the room.
    Knn { k: u16 },
    /// Asks for the same by a scan in the order of the places.
    Ssa { k: u16 },
    /// Asks for all vectors within the radius of the query of the room.
    Range { radius: u64 },
    /// Opens a cursor that ranks by the query of the room. The name is 0 to 63.
    Open { name: u8 },
    /// Asks a cursor for its next pair. The name is 0 to 63.
    Next { name: u8 },
    /// Closes a cursor. The name is 0 to 63.
    Close { name: u8 },
    /// Starts a building of new marks.
    Requant,
    /// Converts up to `n` ids, which is at least 1.
    Convert { n: u32 },
    /// Asks for a certificate of the `k` nearest to the query of the room.
    Cert { k: u16 },
}

/// The line isn't in the grammar.
#[derive(Clone, Copy, Debug, PartialEq, Eq)]
pub struct Syntax;
