// What callers may rest on, as a function that does nothing: the law is the contract.
ghost use Rattle.va_keep.specs.KeptLaws.{HoldsTheAnswer, HoldsTheLeast};

/// Once all pairs were offered, one by one, the k least of them are held, and they are the answer where the pairs
/// differ.
#[tactic(auto, using(crate::proofs::Offers::offered_least, crate::proofs::Offers::offered_answer))]
pub fn keep_holds_the_answer()
    ensures least { HoldsTheLeast }
    ensures answer { HoldsTheAnswer }
{}
