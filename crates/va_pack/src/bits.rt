// Bits that are written to bytes, and read from them, a few at a time.
ghost use Rattle.std.specs.Prelude.{◌≡◌, ℕ, ◌+◌, ◌*◌, ◌/◌, ◌%◌, ◌^◌, ◌<◌, ◌≤◌, length};
ghost use Rattle.va_pack.specs.Held.{AreHeld, HasRead, bits_before, written};

/// The bits between two whole bytes: put and not yet in a byte, or read from a byte and not yet given.
#[derive(Clone, Copy)]
pub struct HeldBits {
    /// The index of the next byte.
    pub at: usize,
    /// How many bits are held, 0 to 7.
    pub count: u32,
    /// Those bits as a number, below `2 ^ count`.
    pub value: u32,
}

impl HeldBits {
    /// No bit is held, and the next byte is the first.
    pub fn none() -> HeldBits
        ensures { result ≡ record { at = 0; count = 0; value = 0 } }
    {
        HeldBits {
            at: 0,
            count: 0,
            value: 0,
        }
    }

    /// Puts a slice of `width` bits, 0 to 8, behind what was put before. A byte of `out` is written as soon as
    /// its bits are there.
    #[inline(always)]
    pub fn put(self, width: u32, slice: u8, out: &mut [u8]) -> HeldBits
        requires held { AreHeld self }
        requires narrow { width ≤ 8 }
        requires fits { slice < 2 ^ width }
        requires room { bits_before self + width ≤ 8 * length out.old }
        ensures held { AreHeld result }
        ensures place { bits_before result ≡ bits_before self + width }
        ensures written { written result out.new ≡ written self out.old * 2 ^ width + slice }
    {
        let value = appended(self.value, width, slice);
        let count = self.count + width;
        if count < 8 {
            return HeldBits {
                at: self.at,
                count,
                value,
            };
        }
        let rest = count - 8;
        out[self.at] = high_bits(value, rest);
        HeldBits {
            at: self.at + 1,
            count: rest,
            value: low_bits(value, rest),
        }
    }

    /// The slice in the next `width` bits, 0 to 8, and what is held behind it. A byte is read only where the bits
    /// that are held don't suffice.
    #[inline(always)]
    pub fn get(self, width: u32, bytes: &[u8]) -> (HeldBits, u8)
        requires held { AreHeld self }
        requires narrow { width ≤ 8 }
        requires room { 8 * self.at + width ≤ 8 * length bytes.now + self.count }
        ensures held { AreHeld result.0 }
        // What was given grows by the width: the bits that were read but for those that are held.
        ensures place { 8 * result.0.at + self.count ≡ 8 * self.at + width + result.0.count }
        ensures fits { result.1 < 2 ^ width }
        ensures read { (n : ℕ) → HasRead self bytes.now n → HasRead result.0 bytes.now (n * 2 ^ width + result.1) }
    {
        if width <= self.count {
            let rest = self.count - width;
            let held = HeldBits {
                at: self.at,
                count: rest,
                value: low_bits(self.value, rest),
            };
            return (held, high_bits(self.value, rest));
        }
        let value = appended(self.value, 8, bytes[self.at]);
        let rest = self.count + 8 - width;
        let held = HeldBits {
            at: self.at + 1,
            count: rest,
            value: low_bits(value, rest),
        };
        (held, high_bits(value, rest))
    }
}

/// The bits of `value` with the `width` bits of `slice` behind them.
#[inline(always)]
fn appended(value: u32, width: u32, slice: u8) -> u32
    requires short { value < 2 ^ 16 }
    requires narrow { width ≤ 8 }
    ensures { result ≡ value * 2 ^ width + slice }
{
    (value << width) + u32::from(slice)
}

/// The bits of `value` but for the last `count`.
#[inline(always)]
fn high_bits(value: u32, count: u32) -> u8
    requires few { count < 16 }
    requires fits { value / 2 ^ count < 256 }
    ensures { result ≡ value / 2 ^ count }
{
    (value >> count) as u8
}

/// The last `count` bits of `value`.
#[inline(always)]
pub fn low_bits(value: u32, count: u32) -> u32
    requires few { count < 16 }
    ensures { result ≡ value % 2 ^ count }
{
    value % (1 << count)
}
