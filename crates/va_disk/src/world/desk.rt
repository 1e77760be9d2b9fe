// A world as a desk.
ghost use Rattle.std.specs.Prelude.{◌≡◌, ◌<◌, ◌++◌, [], ◌∷◌, List, ℕ, length, take, min, IfOk, OnOk, OnErr};
ghost use Rattle.va_disk.specs.Frames.{Goes, OnlyGives, SinkFails};
ghost use Rattle.va_disk.specs.Plan.{Counted};
ghost use Rattle.va_disk.specs.World as world;
ghost use Rattle.va_disk.specs.declared.call.Call.TheVariants.{Give};

use super::World;
use crate::{Desk, SinkFault, Storage};

impl Desk for World {
    fn give(&mut self, bytes: &[u8]) -> Result<usize, SinkFault>
        requires { 0 < length bytes.now }
        ensures taken { IfOk result (λ n. n ≡ min (world.most self.old) (length bytes.now)) }
        ensures some { IfOk result (λ n. 0 < n) }
        ensures given { IfOk result (λ n. world.given self.new ≡ world.given self.old ++ take n bytes.now) }
        ensures nothing { OnErr result (world.given self.new ≡ world.given self.old) }
        ensures recorded { IfOk result (λ n. world.recorded self.new ≡ world.recorded self.old ++ Give (take n bytes.now) ∷ []) }
        ensures recorded_err { OnErr result (world.recorded self.new ≡ world.recorded self.old) }
        ensures moves { OnOk result (world.clock self.old < world.clock self.new) }
        ensures frame { OnlyGives ⟦<World as Storage>⟧ bytes.now self.old self.new }
        ensures time { Goes ⟦<World as Storage>⟧ self.old self.new }
        ensures cause { SinkFails ⟦<World as Storage>⟧ self.old self.new result }
        ensures stable { world.stable self.new ≡ world.stable self.old }
        ensures pending { world.pending self.new ≡ world.pending self.old }
        ensures number { world.Numbered self.old self.new }
        ensures fails { world.Fails self.old self.new result }
        ensures count { Counted (world.sink_faults self.old) (world.sink_faults self.new) result }
    {
        if self.plan.fails_next() {
            self.sink_faults = self.sink_faults.saturating_add(1);
            return Err(SinkFault);
        }
        let count = (bytes.len() as u64).min(self.plan.most) as usize;
        match self.history.give(&bytes[..count]) {
            Ok(()) => Ok(count),
            Err(_) => {
                self.starved = self.starved.saturating_add(1);
                self.sink_faults = self.sink_faults.saturating_add(1);
                Err(SinkFault)
            }
        }
    }
}
