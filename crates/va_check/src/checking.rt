// The checker.
ghost use Rattle.std.specs.Prelude.{◌≡◌, ℕ, None, Some, IfOk, IfErr};
ghost use Rattle.va_cert.specs.Reasons.{Accepts};
ghost use Rattle.va_cert.specs.Sound.{IsSound};
ghost use Rattle.va_check.specs.Says.{IsReason};

use crate::Refusal;
use crate::form::form_fault;
use crate::known::gather;
use crate::rows::{
    cut, first_before, first_difference, first_needless, first_outside, first_substitute_outside,
    pair_number,
};
use crate::table::parts_of;
use std::alloc::Global;
use va_cert::Certificate;

/// Checks a certificate: Ok only where it is sound, whoever made it.
pub fn check(alloc: Global, cert: &Certificate) -> Result<(), Refusal>
    ensures accepted { IfOk result (λ _. Accepts cert.now) }
    ensures sound { IfOk result (λ _. IsSound cert.now) }
    ensures refused { IfErr result (λ refusal. IsReason refusal cert.now) }
{
    if let Some(part) = form_fault(cert) {
        return Err(Refusal::Form(part));
    }
    if let Some(id) = first_outside(cert) {
        return Err(Refusal::Outside(id));
    }
    if let Some(id) = first_substitute_outside(cert) {
        return Err(Refusal::SubOutside(id));
    }
    let table = match parts_of(alloc, cert) {
        Ok(table) => table,
        Err(_) => return Err(Refusal::Memory),
    };
    let gathered = match gather(alloc, cert, &table) {
        Ok(gathered) => gathered,
        Err(_) => return Err(Refusal::Memory),
    };
    let least = gathered.least;
    let known = cut(gathered.known, cert.k);
    if let Some(position) = first_difference(cert.answer.as_slice(), &known) {
        return Err(Refusal::Answer(position));
    }
    let last = pair_number(cert.k, &known);
    if let Some(id) = first_before(last, least) {
        return Err(Refusal::Undetermined(id));
    }
    if let Some(id) = first_needless(cert, &table, last) {
        return Err(Refusal::Needless(id));
    }
    Ok(())
}
