// Whether JSON has the kinds of a certificate.
ghost use Rattle.std.specs.Prelude.{◌≡◌, ◌==◌, map};
ghost use Rattle.std.specs.List.{list_all};
ghost use Rattle.std.specs.Option.{option_map};
ghost use Rattle.serde_json.specs.Events.{members_len};
ghost use Rattle.serde_json.specs.Find.{as_object, get};
ghost use Rattle.serde_json.specs.View.{view};
ghost use Rattle.va_cert.specs.Reads as reads;

use serde_json::Value;

/// The members of a list.
pub(crate) fn list_in(value: &Value) -> Option<&[Value]>
    ensures { option_map (λ list. map view list.now) result ≡ reads.as_list (view value.now) }
{
    match value.as_array() {
        Some(list) => Some(list),
        None => None,
    }
}

fn all_numbers(list: &[Value]) -> bool
    ensures { result ≡ list_all (λ v. reads.is_number (view v)) list.now }
{
    list.iter().all(|member| member.is_number())
}

fn are_numbers(value: &Value) -> bool
    ensures { result ≡ reads.are_numbers (view value.now) }
{
    match list_in(value) {
        Some(list) => all_numbers(list),
        None => false,
    }
}

fn is_pair(value: &Value) -> bool
    ensures { result ≡ reads.is_pair (view value.now) }
{
    match list_in(value) {
        Some([id, dist]) => id.is_number() && dist.is_number(),
        _ => false,
    }
}

fn is_row(value: &Value) -> bool
    ensures { result ≡ reads.is_row (view value.now) }
{
    match list_in(value) {
        Some([id, first, second]) => id.is_number() && are_numbers(first) && are_numbers(second),
        _ => false,
    }
}

fn all_pairs(list: &[Value]) -> bool
    ensures { result ≡ list_all (λ v. reads.is_pair (view v)) list.now }
{
    list.iter().all(|member| is_pair(member))
}

fn are_pairs(value: &Value) -> bool
    ensures { result ≡ reads.is_list reads.is_pair (view value.now) }
{
    match list_in(value) {
        Some(list) => all_pairs(list),
        None => false,
    }
}

fn all_rows(list: &[Value]) -> bool
    ensures { result ≡ list_all (λ v. reads.is_row (view v)) list.now }
{
    list.iter().all(|member| is_row(member))
}

fn are_rows(value: &Value) -> bool
    ensures { result ≡ reads.is_list reads.is_row (view value.now) }
{
    match list_in(value) {
        Some(list) => all_rows(list),
        None => false,
    }
}

fn all_lists(list: &[Value]) -> bool
    ensures { result ≡ list_all (λ v. reads.are_numbers (view v)) list.now }
{
    list.iter().all(|member| are_numbers(member))
}

fn are_lists(value: &Value) -> bool
    ensures { result ≡ reads.is_list reads.are_numbers (view value.now) }
{
    match list_in(value) {
        Some(list) => all_lists(list),
        None => false,
    }
}

// Whether it is an object with six keys.
#[tactic(auto, using(crate::proofs::Listed::six_keys))]
fn has_six_keys(value: &Value) -> bool
    ensures { result ≡ reads.passes (λ members. members_len members == 6) (as_object (view value.now)) }
{
    match value.as_object() {
        Some(members) => members.len() == 6,
        None => false,
    }
}

fn has_number(value: &Value, key: &str) -> bool
    ensures { result ≡ reads.passes reads.is_number (get key.now (view value.now)) }
{
    value.get(key).is_some_and(|member| member.is_number())
}

fn has_numbers(value: &Value, key: &str) -> bool
    ensures { result ≡ reads.passes reads.are_numbers (get key.now (view value.now)) }
{
    value.get(key).is_some_and(|member| are_numbers(member))
}

fn has_pairs(value: &Value, key: &str) -> bool
    ensures { result ≡ reads.passes (reads.is_list reads.is_pair) (get key.now (view value.now)) }
{
    value.get(key).is_some_and(|member| are_pairs(member))
}

fn has_rows(value: &Value, key: &str) -> bool
    ensures { result ≡ reads.passes (reads.is_list reads.is_row) (get key.now (view value.now)) }
{
    value.get(key).is_some_and(|member| are_rows(member))
}

fn has_lists(value: &Value, key: &str) -> bool
    ensures { result ≡ reads.passes (reads.is_list reads.are_numbers) (get key.now (view value.now)) }
{
    value.get(key).is_some_and(|member| are_lists(member))
}

/// Whether it is an object with exactly the keys of a certificate, each with a value of its kind.
pub(crate) fn has_kinds(value: &Value) -> bool
    ensures { result ≡ reads.has_kinds (view value.now) }
{
    has_six_keys(value)
        && has_pairs(value, "answer")
        && has_rows(value, "boxes")
        && has_rows(value, "fetched")
        && has_number(value, "k")
        && has_lists(value, "objects")
        && has_numbers(value, "weights")
}
