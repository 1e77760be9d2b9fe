// What callers may rest on, as functions that do nothing: the law is the contract.
ghost use Rattle.va_cert.specs.Made.{MadeIsAccepted};
ghost use Rattle.va_cert.specs.Reads.{ReadsBack};
ghost use Rattle.va_cert.specs.Sound.{AcceptedIsSound};
ghost use Rattle.va_cert.specs.Telling.{MadeTells};
ghost use Rattle.va_cert.specs.Text.{TextIsOneLine};

/// An accepted certificate is sound, whoever made it.
#[tactic(auto, using(crate::proofs::Soundness::accepted_is_sound))]
pub fn accepted_is_sound()
    ensures { AcceptedIsSound }
{}

/// The certificate of a search is accepted.
#[tactic(auto, using(crate::proofs::Acceptance::made_is_accepted))]
pub fn made_is_accepted()
    ensures { MadeIsAccepted }
{}

/// The certificate of a search shows of each vector that it lists that it had to be read.
pub fn made_tells()
    ensures { MadeTells }
{}

/// The text of a certificate is read as that certificate.
#[tactic(auto, using(crate::proofs::Meaning::reads_back))]
pub fn reads_back()
    ensures { ReadsBack }
{}

/// The text of a certificate has no newline.
#[tactic(auto, using(crate::proofs::OneLine::text_is_one_line))]
pub fn text_is_one_line()
    ensures { TextIsOneLine }
{}
