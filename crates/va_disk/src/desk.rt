// A disk that also gives bytes to whoever waits for replies.
ghost use Rattle.std.specs.Prelude.{◌≡◌, ◌<◌, ◌≤◌, length, take, IfOk, OnOk, OnErr};
ghost use Rattle.va_disk.specs.Frames.{Goes, OnlyGives, SinceStart, SinkFails};
ghost use Rattle.va_disk.specs.Told.{Gives, GivesPart, GivesPrefix};

use crate::Disk;

/// The sink failed in a call, and took nothing.
#[derive(Clone, Copy, Debug, PartialEq, Eq)]
pub struct SinkFault;

/// A disk with a sink for replies.
pub trait Desk: Disk {
    /// Gives the first bytes, at least one, and answers how many.
    fn give(&mut self, bytes: &[u8]) -> Result<usize, SinkFault>
        requires { 0 < length bytes.now }
        ensures some { IfOk result (λ n. 0 < n) }
        ensures bound { IfOk result (λ n. n ≤ length bytes.now) }
        ensures given { IfOk result (λ n. Gives Self.told (Self.given self.old) (take n bytes.now) (Self.given self.new)) }
        ensures nothing { OnErr result (Self.given self.new ≡ Self.given self.old) }
        ensures moves { OnOk result (Self.told → Self.clock self.old < Self.clock self.new) }
        ensures frame { OnlyGives Self.Storage bytes.now self.old self.new }
        ensures time { Goes Self.Storage self.old self.new }
        ensures cause { SinkFails Self.Storage self.old self.new result };
}

/// Gives all the bytes in order. After a fault a proper prefix was given.
pub fn give_all<D: Desk>(desk: &mut D, bytes: &[u8]) -> Result<(), SinkFault>
    ensures given { OnOk result (Gives D.told (D.given desk.old) bytes.now (D.given desk.new)) }
    ensures part { OnErr result (GivesPart D.told (D.given desk.old) bytes.now (D.given desk.new)) }
    ensures frame { OnlyGives D.Storage bytes.now desk.old desk.new }
    // The same of the moments since the start alone.
    ensures outcomes { D.honest → D.told → SinceStart D.Storage desk.old desk.new
        (λ c g. D.may_leave desk.old c × GivesPrefix D.told (D.given desk.old) bytes.now g) }
    ensures cause { SinkFails D.Storage desk.old desk.new result }
{
    let mut done = 0;
    while done < bytes.len() {
        done += desk.give(&bytes[done..])?;
    }
    Ok(())
}
