// What callers may rest on, as functions that do nothing: the law is the contract.
ghost use Rattle.va_check.specs.Judging.{AcceptedIsJudged, MadeIsJudged};

/// The text of an accepted certificate is judged accepted.
#[tactic(auto, using(crate::proofs::Replied::accepted_is_judged))]
pub fn accepted_is_judged()
    ensures { AcceptedIsJudged }
{}

/// The reply with the certificate of a search isn't too long, and is judged accepted.
pub fn made_is_judged()
    ensures { MadeIsJudged }
{}
