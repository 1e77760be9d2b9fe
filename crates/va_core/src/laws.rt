// What callers may rest on, as functions that do nothing: the law is the contract.
ghost use Rattle.va_core.specs.BoundLaws.{BoundsAreAttained, BoundsSurround, BoxHasOneCell, OwnBoxHolds};
ghost use Rattle.va_core.specs.Laws.{
  AnswerAscends,
  AnswerIsExact,
  AnswerIsFull,
  IsRanking,
  WithinAscends,
  WithinIsExact,
};
ghost use Rattle.va_core.specs.MarkLaws.{MarksAreFew, MarksFillTheirBytes, SliceHoldsValue};
ghost use Rattle.va_core.specs.ReadLaws.{CandidateIsExact, NearestReadsAreLeast, NeededAtMost, ReadsGrow, SubstitutesTell, WithinReadsAreLeast};
ghost use Rattle.va_core.specs.Ranking.{is_less};

/// Of two pairs that differ exactly one is less, and a pair that is less than a lesser one is less.
#[tactic(auto, using(crate::proofs::Order::is_less_ranks))]
pub fn pairs_are_ranked()
    ensures { IsRanking is_less }
{}

/// The answer to k has exactly the pairs with fewer than k lesser ones.
pub fn answer_is_exact()
    ensures { AnswerIsExact }
{}

/// The answer from pairs that differ is strictly ascending.
#[tactic(auto, using(crate::proofs::Nearest::answer_ascending))]
pub fn answer_ascends()
    ensures { AnswerAscends }
{}

/// The answer to k from pairs that differ has k members, or all of them where they are fewer.
#[tactic(auto, using(crate::proofs::Nearest::answer_full))]
pub fn answer_is_full()
    ensures { AnswerIsFull }
{}

/// Within a radius are exactly the pairs with a distance of at most that, strictly ascending where they differ.
pub fn within_is_exact()
    ensures exact { WithinIsExact }
    ensures ascends { WithinAscends }
{}

/// The slice of a value isn't empty and its interval has the value, a dimension has at most 257 marks, and marks of a
/// shape take as many bytes as the shape says.
pub fn marks_cut_into_slices()
    ensures slice { SliceHoldsValue }
    ensures few { MarksAreFew }
    ensures bytes { MarksFillTheirBytes }
{}

/// The distances of the vectors of a box lie between its bounds, and both are attained.
pub fn bounds_are_exact()
    ensures surround { BoundsSurround }
    ensures attained { BoundsAreAttained }
{}

/// The box of a vector's own cell holds it, and what lies in the box of a cell is a vector of that cell.
pub fn boxes_are_cells()
    ensures own { OwnBoxHolds }
    ensures one { BoxHasOneCell }
{}

/// What is read for the k nearest is the least set that determines them: the answer follows from it, and with the
/// substitute in place of any one of it there is another answer.
pub fn nearest_reads_are_least()
    ensures least { NearestReadsAreLeast }
    ensures tell { SubstitutesTell }
{}

/// What is read for the items within a radius is the least set that determines them.
pub fn within_reads_are_least()
    ensures { WithinReadsAreLeast }
{}

/// What is needed for one pair more is what was needed before, and then what is next.
pub fn reads_grow_at_their_end()
    ensures { ReadsGrow }
{}

/// A candidate is what the k-th of the greatest pairs doesn't keep out, and no more are needed than are candidates.
pub fn needed_are_candidates()
    ensures exact { CandidateIsExact }
    ensures most { NeededAtMost }
{}
