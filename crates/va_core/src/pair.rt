// What a search answers with.
ghost use Rattle.std.specs.Prelude.{◌≡◌};
ghost use Rattle.va_core.specs.Ranking as ranking;

/// The distance of a vector from a query, and the vector's id. A pair is less than another where its
/// distance is less, or the distances are equal and its id is less.
#[derive(Clone, Copy, Debug, PartialEq, Eq, PartialOrd, Ord)]
pub struct Pair {
    /// Below `2^45` for a query of 16 objects with weights up to 65,535.
    pub dist: u64,
    pub id: u32,
}

/// Whether the first pair is less than the second.
pub fn is_less(first: Pair, second: Pair) -> bool
    ensures { result ≡ ranking.is_less first second }
{
    first < second
}

#[cfg(test)]
mod tests {
    use super::*;

    #[test]
    fn a_tie_of_distances_goes_to_the_lesser_id(rt: HostRuntime) {
        let nearer = Pair { dist: 3, id: 9 };
        let lesser_id = Pair { dist: 5, id: 1 };
        let greater_id = Pair { dist: 5, id: 2 };
        assert!(rt; is_less(nearer, lesser_id));
        assert!(rt; is_less(lesser_id, greater_id));
        assert!(rt; !is_less(greater_id, lesser_id));
        assert!(rt; !is_less(greater_id, greater_id));
    }
}
