// What callers may rest on, as functions that do nothing: the law is the contract.
ghost use Rattle.va_cursor.specs.Laws.{PlacesKeepVectors, ReadsAreLeast, ReadsAreNeeded};

/// What a cursor reads for its first pairs is together what a search for as many nearest needs, and so a least set that
/// determines them.
pub fn reads_are_least()
    ensures needed { ReadsAreNeeded }
    ensures least { ReadsAreLeast }
{}

/// A caller that keeps the vectors of the places of a snapshot keeps those of what isn't given yet.
pub fn places_keep_vectors()
    ensures { PlacesKeepVectors }
{}
