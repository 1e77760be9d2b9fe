// What a reader may rest on, as a function that does nothing: the law is the contract.
ghost use Rattle.va_pack.specs.BitStrings.{PacksBits};

/// The bits of a packed code, each byte's most significant first, are those of the slices, dimension 0 first and
/// each slice's most significant first, and then zeros.
#[tactic(auto, using(crate::proofs::BitStrings::packed_bits))]
pub fn code_is_a_string_of_bits()
    ensures { PacksBits }
{}
