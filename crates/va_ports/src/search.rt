// What searches answer.
ghost use Rattle.std.specs.Prelude.{◌≡◌};
ghost use Rattle.va_ports.specs.declared.search.SearchFault.TheVariants.{Memory, Shelf};

use crate::ShelfFault;
use va_core::{Ids, Memory, Pairs};

/// What a search found.
#[derive(Drop)]
pub struct Found {
    /// The pairs that were asked for, in ascending order.
    pub pairs: Pairs,
    /// The ids whose vectors were fetched, in the order of the fetches.
    pub fetched: Ids,
    /// How many ids came into question.
    pub candidates: u32,
}

/// Why a search failed.
#[derive(Clone, Copy, Debug, PartialEq, Eq)]
pub enum SearchFault {
    /// No memory was found, and no vector was fetched.
    Memory,
    /// The shelf failed in a call.
    Shelf(ShelfFault),
    /// The distance of the vector in a place is below the lower bound of its cell or above the upper one.
    Mismatch {
        place: u32,
        dist: u64,
        low: u64,
        high: u64,
    },
}

impl From<ShelfFault> for SearchFault {
    ghost from_gives = { λ fault why. why ≡ Shelf fault };

    fn from(fault: ShelfFault) -> SearchFault {
        SearchFault::Shelf(fault)
    }
}

impl From<Memory> for SearchFault {
    ghost from_gives = { λ _ why. why ≡ Memory };

    fn from(_none: Memory) -> SearchFault {
        SearchFault::Memory
    }
}
