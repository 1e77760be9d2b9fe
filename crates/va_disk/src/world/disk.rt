// A world as a disk.
ghost use Rattle.std.specs.Prelude.{◌≡◌, ◌+◌, ◌<◌, ◌≤◌, ◌^◌, ◌++◌, [], ◌∷◌, List, ℕ, length, take, drop, max, OnOk, OnErr};
ghost use Rattle.std.proofs.Common.{refl};
ghost use Rattle.va_disk.specs.Crashes.{Only, Follows, Torn, Holds};
ghost use Rattle.va_disk.specs.Frames.{DiskFails, Goes, OnlyReads, OnlyWrites};
ghost use Rattle.va_disk.specs.ReplayLaws.{image_is_bounded, image_is_outcome, now_counts, now_only};
ghost use Rattle.va_disk.specs.Plan.{Counted};
ghost use Rattle.va_disk.specs.World as world;
ghost use Rattle.va_disk.specs.declared.call.Call.TheVariants.{Read, Write, Sync};

use super::World;
use crate::{Disk, DiskFault, Storage};

impl Storage for World {
    ghost told = { Unit {0} };

    ghost honest = { Unit {0} };

    ghost size = { λ w. length (world.image w) };

    ghost image = { λ w. world.image w };

    ghost reads = { λ w. world.reads w };

    ghost given = { λ w. world.given w };

    ghost clock = { λ w. world.clock w };

    ghost may_leave = { λ w c. world.may_leave w c };

    ghost left_since = { λ w t c g. world.left_since w t c g };

    ghost faults = { λ w. world.faults w };

    ghost sink_faults = { λ w. world.sink_faults w };
}

impl Disk for World {
    ghost bounded = { λ w. image_is_bounded w.history.image };

    ghost length_told = { λ w _. refl };

    ghost is_outcome = { λ w _ _. image_is_outcome (world.first w) (world.recorded w) (world.image w) w.history.image_is };

    ghost counts_now = { λ w t c _ le left. now_counts (world.first w) (world.recorded w) (world.given w) t c w.history.given_is le left };

    ghost only_now = { λ w c g _ left. now_only (world.first w) (world.recorded w) (world.given w) c g w.history.given_is left };

    fn len(&self) -> u64 {
        self.history.image.len() as u64
    }

    fn read(&mut self, at: u64, out: &mut [u8]) -> Result<(), DiskFault>
        requires { at + length out.old ≤ length (world.image self.old) }
        ensures filled { OnOk result (out.new ≡ take (length out.old) (drop at (world.image self.old))) }
        ensures filled_err { OnErr result (out.new ≡ out.old) }
        ensures reads { OnOk result (world.reads self.new ≡ world.reads self.old ++ (at, length out.old) ∷ []) }
        ensures reads_err { OnErr result (world.reads self.new ≡ world.reads self.old) }
        ensures recorded { OnOk result (world.recorded self.new ≡ world.recorded self.old ++ Read at (length out.old) ∷ []) }
        ensures recorded_err { OnErr result (world.recorded self.new ≡ world.recorded self.old) }
        ensures frame { OnlyReads ⟦<World as Storage>⟧ self.old self.new }
        ensures time { Goes ⟦<World as Storage>⟧ self.old self.new }
        ensures cause { DiskFails ⟦<World as Storage>⟧ self.old self.new result }
        ensures stable { world.stable self.new ≡ world.stable self.old }
        ensures pending { world.pending self.new ≡ world.pending self.old }
        ensures number { world.Numbered self.old self.new }
        ensures fails { world.Fails self.old self.new result }
        ensures count { Counted (world.faults self.old) (world.faults self.new) result }
    {
        if self.plan.fails_next() {
            self.faults = self.faults.saturating_add(1);
            return Err(DiskFault);
        }
        match self.history.read(at, out.len() as u64) {
            Ok(()) => {
                out.copy_from_slice(&self.history.image[at as usize..at as usize + out.len()]);
                Ok(())
            }
            Err(_) => {
                self.starved = self.starved.saturating_add(1);
                self.faults = self.faults.saturating_add(1);
                Err(DiskFault)
            }
        }
    }

    fn write(&mut self, at: u64, bytes: &[u8]) -> Result<(), DiskFault>
        requires inside { at ≤ length (world.image self.old) }
        requires end { at + length bytes.now < 2 ^ 63 }
        ensures written { OnOk result (Holds (world.image self.old) at bytes.now (world.image self.new)) }
        ensures image_err { OnErr result (world.image self.new ≡ world.image self.old) }
        ensures size { OnOk result (length (world.image self.new) ≡ max (length (world.image self.old)) (at + length bytes.now)) }
        ensures recorded { OnOk result (world.recorded self.new ≡ world.recorded self.old ++ Write at bytes.now ∷ []) }
        ensures recorded_err { OnErr result (world.recorded self.new ≡ world.recorded self.old) }
        ensures crash { Follows (Torn at (length bytes.now)) (world.may_leave self.old) (world.may_leave self.new) }
        ensures frame { OnlyWrites ⟦<World as Storage>⟧ self.old self.new (world.may_leave self.new) }
        ensures time { Goes ⟦<World as Storage>⟧ self.old self.new }
        ensures cause { DiskFails ⟦<World as Storage>⟧ self.old self.new result }
        ensures stable { world.stable self.new ≡ world.stable self.old }
        ensures pending { OnOk result (world.pending self.new ≡ world.pending self.old ++ (at, length bytes.now) ∷ []) }
        ensures pending_err { OnErr result (world.pending self.new ≡ world.pending self.old) }
        ensures number { world.Numbered self.old self.new }
        ensures fails { world.Fails self.old self.new result }
        ensures count { Counted (world.faults self.old) (world.faults self.new) result }
    {
        if self.plan.fails_next() {
            self.faults = self.faults.saturating_add(1);
            return Err(DiskFault);
        }
        match self.history.write(at, bytes) {
            Ok(()) => Ok(()),
            Err(_) => {
                self.starved = self.starved.saturating_add(1);
                self.faults = self.faults.saturating_add(1);
                Err(DiskFault)
            }
        }
    }

    fn sync(&mut self) -> Result<(), DiskFault>
        ensures durable { OnOk result (Only (world.image self.old) (world.may_leave self.new)) }
        ensures recorded { OnOk result (world.recorded self.new ≡ world.recorded self.old ++ Sync ∷ []) }
        ensures recorded_err { OnErr result (world.recorded self.new ≡ world.recorded self.old) }
        ensures reads { world.reads self.new ≡ world.reads self.old }
        ensures crash_err { OnErr result ((c : List ℕ) → world.may_leave self.old c → world.may_leave self.new c) }
        ensures frame { OnlyReads ⟦<World as Storage>⟧ self.old self.new }
        ensures time { Goes ⟦<World as Storage>⟧ self.old self.new }
        ensures cause { DiskFails ⟦<World as Storage>⟧ self.old self.new result }
        ensures stable { OnOk result (world.stable self.new ≡ world.image self.old) }
        ensures stable_err { OnErr result (world.stable self.new ≡ world.stable self.old) }
        ensures pending { OnOk result (world.pending self.new ≡ []) }
        ensures pending_err { OnErr result (world.pending self.new ≡ world.pending self.old) }
        ensures number { world.Numbered self.old self.new }
        ensures fails { world.Fails self.old self.new result }
        ensures count { Counted (world.faults self.old) (world.faults self.new) result }
    {
        if self.plan.fails_next() {
            self.faults = self.faults.saturating_add(1);
            return Err(DiskFault);
        }
        match self.history.sync() {
            Ok(()) => Ok(()),
            Err(_) => {
                self.starved = self.starved.saturating_add(1);
                self.faults = self.faults.saturating_add(1);
                Err(DiskFault)
            }
        }
    }
}
