// The search over a shelf that keeps what is fetched.
ghost use Rattle.std.specs.Prelude.{◌≡◌, ◌≤◌, length, IfOk, IfErr};
ghost use Rattle.va_bounded.specs.CellReads.{IfTold};
ghost use Rattle.va_bounded.specs.Keeps.{clamped_pairs};
ghost use Rattle.va_core.specs.Ranking.{answer};
ghost use Rattle.va_maker.specs.Making.{ReadNeeded, kept_needed};
ghost use Rattle.va_noa.specs.NearestReads.{StoppedNeeded};
ghost use Rattle.va_ports.specs.Faults.{CountsShelfFaults};
ghost use Rattle.va_ports.specs.Searches.{GoesOn};

use crate::keeping::Keeping;
use crate::kept::KeptVectors;
use std::alloc::Global;
use va_core::Pairs;
use va_dist::Query;
use va_noa::nearest;
use va_ports::{SearchFault, Shelf};

/// What a search found, and the vectors that it fetched.
#[derive(Drop)]
pub struct KeptSearch {
    pub pairs: Pairs,
    pub kept: KeptVectors,
}

/// The k nearest, as `nearest` finds them.
pub fn search_keeping<S: Shelf>(
    alloc: Global,
    shelf: &mut S,
    query: &Query,
    k: u16,
) -> Result<KeptSearch, SearchFault>
    requires some { 1 ≤ k }
    requires dims { length query.now.weights ≡ (S.contents shelf.old).shape.dims }
    ensures pairs { IfOk result (λ found. IfTold S.Shelf shelf.old (λ held.
        found.pairs ≡ answer (clamped_pairs held query.now held.cells) k)) }
    ensures kept { IfOk result (λ found. IfTold S.Shelf shelf.old (λ held.
        found.kept.vectors ≡ kept_needed held query.now k)) }
    ensures dims { IfOk result (λ found. found.kept.dims ≡ (S.contents shelf.old).shape.dims) }
    ensures read { IfOk result (λ found. ReadNeeded S.Shelf query.now k shelf.old shelf.new) }
    ensures stopped { IfErr result (StoppedNeeded S.Shelf query.now k shelf.old shelf.new) }
    ensures contents { S.contents shelf.new ≡ S.contents shelf.old }
    ensures goes_on { GoesOn S.Shelf shelf.old shelf.new }
    ensures cause { CountsShelfFaults (S.faults shelf.old) (S.faults shelf.new) result }
{
    let mut kept = KeptVectors::new(alloc, query.dims(), shelf.live())?;
    let mut keeping = Keeping {
        shelf,
        kept: &mut kept,
    };
    let found = nearest(alloc, &mut keeping, query, k)?;
    Ok(KeptSearch {
        pairs: found.pairs,
        kept,
    })
}
