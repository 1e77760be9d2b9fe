// The rows of the table of refusals, behind the form.
ghost use Rattle.std.specs.Prelude.{◌≡◌, ◌+◌, ◌<◌, ◌≤◌, ◌||◌, ◌&&◌, ◌==◌, ℕ, None, Some, length, IfOk, map, not, true, take};
ghost use Rattle.std.specs.Option.{option_map};
ghost use Rattle.va_core.specs.Approximations.{paired};
ghost use Rattle.va_core.specs.Kth.{kth, is_before, is_beyond};
ghost use Rattle.va_core.specs.Ranking.{ascending};
ghost use Rattle.va_core.specs.Kth as kths;
ghost use Rattle.va_core.specs.declared.pair.Pair.{Pair};
ghost use Rattle.va_cert.specs.Known.{dist_of, known_list};
ghost use Rattle.va_cert.specs.Reasons as reasons;
ghost use Rattle.va_cert.specs.Forms.{IsFormed};
ghost use Rattle.va_check.specs.Tables.{IsTable};

use crate::known::is_in_box;
use crate::table::distance;
use va_cert::{Certificate, Taken};
use va_core::{Pair, is_less};

/// The first entry whose vector isn't in its box.
pub(crate) fn first_outside(cert: &Certificate) -> Option<u32>
    requires { IsFormed cert.now }
    ensures { result ≡ reasons.first_entry (reasons.is_outside cert.now) cert.now.fetched }
{
    for taken in cert.fetched.as_slice() {
        if !is_in_box(cert.boxes.as_slice(), taken.id, taken.vector.as_slice()) {
            return Some(taken.id);
        }
    }
    None
}

/// The first entry whose substitute isn't in its box.
pub(crate) fn first_substitute_outside(cert: &Certificate) -> Option<u32>
    requires { IsFormed cert.now }
    ensures { result ≡ reasons.first_entry (reasons.is_substitute_outside cert.now) cert.now.fetched }
{
    for taken in cert.fetched.as_slice() {
        if !is_in_box(cert.boxes.as_slice(), taken.id, taken.other.as_slice()) {
            return Some(taken.id);
        }
    }
    None
}

/// The k least of the pairs, in order.
pub(crate) fn cut(known: Vec<Pair>, k: u16) -> Vec<Pair>
    ensures { result.items ≡ take k (ascending known.items) }
{
    let mut first = known;
    first.sort_unstable();
    first.truncate(usize::from(k));
    first
}

fn is_same(first: Pair, second: Pair) -> bool
    ensures { result ≡ reasons.is_same first second }
{
    first == second
}

/// The first position at which two lists differ.
#[tactic(auto, using(crate::proofs::Differing::ends_longer, crate::proofs::Differing::ends_shorter))]
pub(crate) fn first_difference(answer: &[Pair], known: &[Pair]) -> Option<u32>
    requires { length known.now ≤ 4096 }
    ensures { result ≡ reasons.first_difference 0 answer.now known.now }
{
    let mut position = 0;
    for pair in known {
        let at = position as usize;
        if at >= answer.len() {
            return Some(position);
        }
        if !is_same(answer[at], *pair) {
            return Some(position);
        }
        position += 1;
    }
    if answer.len() > known.len() {
        Some(position)
    } else {
        None
    }
}

/// The pair number k, from 1 on.
pub(crate) fn pair_number(k: u16, known: &[Pair]) -> Option<Pair>
    requires { 1 ≤ k }
    ensures { result ≡ kth k known.now }
{
    let at = usize::from(k) - 1;
    if at < known.len() {
        Some(known[at])
    } else {
        None
    }
}

/// The id of the least unknown pair, where the k-th pair doesn't keep it out.
pub(crate) fn first_before(last: Option<Pair>, least: Option<Pair>) -> Option<u32>
    ensures { result ≡ option_map (λ (p : Pair). p.id) (kths.first_before last least) }
{
    match (last, least) {
        (_, None) => None,
        (None, Some(pair)) => Some(pair.id),
        (Some(other), Some(pair)) => if is_less(pair, other) {
            Some(pair.id)
        } else {
            None
        },
    }
}

// Whether the k-th pair is less.
fn is_kept_out(last: Option<Pair>, pair: Pair) -> bool
    ensures { result ≡ is_beyond last pair }
{
    match last {
        Some(other) => is_less(other, pair),
        None => false,
    }
}

// Whether the known list stays the same with the substitute's pair in place of the entry's own: the distances are the same, or
// the k-th pair keeps both out.
fn is_needless(cert: &Certificate, table: &[u64], last: Option<Pair>, taken: &Taken) -> bool
    requires formed { IsFormed cert.now }
    requires table { IsTable cert.now table.now }
    requires vector { length taken.now.vector ≡ length cert.now.weights }
    requires other { length taken.now.other ≡ length cert.now.weights }
    ensures { let own = dist_of cert.now taken.now.vector in
        let other = dist_of cert.now taken.now.other in
        result ≡ ((own == other) || (is_beyond last (paired own taken.now.id) && is_beyond last (paired other taken.now.id))) }
{
    let own = distance(cert, table, taken.vector.as_slice());
    let other = distance(cert, table, taken.other.as_slice());
    own == other
        || (is_kept_out(
            last,
            Pair {
                dist: own,
                id: taken.id,
            },
        ) && is_kept_out(
            last,
            Pair {
                dist: other,
                id: taken.id,
            },
        ))
}

/// The first entry that isn't needed.
pub(crate) fn first_needless(cert: &Certificate, table: &[u64], last: Option<Pair>) -> Option<u32>
    requires formed { IsFormed cert.now }
    requires table { IsTable cert.now table.now }
    requires last { last ≡ kth cert.now.k (known_list cert.now) }
    ensures { result ≡ reasons.first_entry (reasons.is_needless cert.now) cert.now.fetched }
{
    for taken in cert.fetched.as_slice() {
        if is_needless(cert, table, last, taken) {
            return Some(taken.id);
        }
    }
    None
}
