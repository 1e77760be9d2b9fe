// A slot's 8 bytes: a gate, three spare bytes, and the id.
ghost use Rattle.std.specs.Prelude.{◌≡◌, ◌+◌, ◌*◌, ◌<◌, [], ◌∷◌, ℕ, length, get_or};
ghost use Rattle.std.specs.Int.{w32, to_be_bytes};
ghost use Rattle.va_layout.specs.Parts.{part};
ghost use Rattle.va_rows.specs.Slots.{slot_from};
ghost use Rattle.va_rows.specs.declared.slot.Slot.{Slot};

/// The bytes of a slot.
pub(crate) const SLOT: usize = 8;

/// A gate of this value is open, and one of any other is closed.
pub(crate) const OPEN: u8 = 0x47;

/// What stands in a place's slot.
#[derive(Clone, Copy, Debug, PartialEq, Eq)]
pub struct Slot {
    /// Whether the gate is open.
    pub live: bool,
    /// The id, which counts only where the gate is open.
    pub id: u32,
}

impl Slot {
    fn from_bytes(bytes: &[u8]) -> Slot
        requires { length bytes.now ≡ 8 }
        ensures { result ≡ slot_from bytes.now }
    {
        Slot {
            live: bytes[0] == OPEN,
            id: u32::from_be_bytes([bytes[4], bytes[5], bytes[6], bytes[7]]),
        }
    }
}

/// Takes the slots apart that stand one after another in some bytes.
pub(crate) fn unpack(bytes: &[u8], out: &mut [Slot])
    requires { length bytes.now ≡ 8 * length out.old }
    ensures { (k : ℕ) (other : Slot) → k < length out.old → get_or out.new k other ≡ slot_from (part (8 * k) 8 bytes.now) }
{
    for index in 0..out.len() {
        out[index] = Slot::from_bytes(&bytes[SLOT * index..SLOT * index + SLOT]);
    }
}

/// The bytes of a slot behind its gate.
pub(crate) fn behind_gate(id: u32) -> [u8; 7]
    ensures { result ≡ 0 ∷ 0 ∷ 0 ∷ to_be_bytes w32 id }
{
    let [a, b, c, d] = id.to_be_bytes();
    [0, 0, 0, a, b, c, d]
}
