// Bytes that come in.
ghost use Rattle.std.specs.Prelude.{◌≡◌, ◌↔◌, ◌<◌, ◌≤◌, [], List, ℕ, length, take, IfOk, OnErr};
ghost use Rattle.va_disk.specs.Frames.{CountsFaults};
ghost use Rattle.va_disk.specs.Told.{Takes};

/// The source failed in a call, and nothing was taken.
#[derive(Clone, Copy, Debug, PartialEq, Eq)]
pub struct SourceFault;

/// Bytes that can be taken from the front.
pub trait Source {
    /// Whether it tells what is left.
    ghost told: { Type 0 };

    /// The bytes that are left.
    ghost left: { Self → List ℕ };

    /// How often it has failed.
    ghost faults: { Self → ℕ };

    /// Moves the next bytes into `out`, and answers how many: 0 only at the end.
    fn take(&mut self, out: &mut [u8]) -> Result<usize, SourceFault>
        requires { 0 < length out.old }
        ensures bound { IfOk result (λ n. n ≤ length out.old) }
        ensures taken { IfOk result (λ n. Takes told (left self.old) (take n out.new) (left self.new)) }
        ensures end { IfOk result (λ n. told → (n ≡ 0) ↔ (left self.old ≡ [])) }
        ensures nothing { OnErr result (left self.new ≡ left self.old) }
        ensures later { faults self.old ≤ faults self.new }
        ensures cause { CountsFaults (faults self.old) (faults self.new) result };
}
