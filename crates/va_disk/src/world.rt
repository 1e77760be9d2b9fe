// A disk and a sink for replies, in memory.
//
// A world models a file that forgets. It keeps the bytes as a read gives them and the bytes of the last sync, and
// a crash may lose or tear each write between the two. Calls of read, write, sync and give are numbered from 0,
// and a test says by number which of them fail. What was carried out is recorded, so what a crash might have left
// at each earlier moment is known too.
ghost use Rattle.std.specs.Prelude.{◌≡◌, ◌↔◌, [], List, ℕ, ◌+◌, ◌-◌, ◌^◌, ◌≤◌, length, IfOk, Some};
ghost use Rattle.va_disk.specs.Crashes.{Only};
ghost use Rattle.va_disk.specs.DiskModel.{KeepsModel, SetsWritten};
ghost use Rattle.va_disk.specs.Replay.{replay};
ghost use Rattle.va_disk.specs.World as world;

mod desk;
mod disk;

use crate::history::History;
use crate::plan::Plan;
use std::alloc::Global;
use va_core::Memory;

/// The desk in memory.
#[derive(Drop)]
pub struct World {
    history: History,
    plan: Plan,
    faults: u64,
    sink_faults: u64,
    starved: u64,
}

impl World {
    /// The image is stable, and nothing was given. Call n fails where n is in `fails` or at least `stop`.
    pub fn new(alloc: Global, image: Vec<u8>, fails: Vec<u64>, stop: u64) -> Result<World, Memory>
        ensures image { IfOk result (λ w. world.image w ≡ image.items) }
        ensures stable { IfOk result (λ w. world.stable w ≡ image.items) }
        ensures pending { IfOk result (λ w. world.pending w ≡ []) }
        ensures only { IfOk result (λ w. Only image.items (world.may_leave w)) }
        ensures given { IfOk result (λ w. world.given w ≡ []) }
        ensures reads { IfOk result (λ w. world.reads w ≡ []) }
        ensures first { IfOk result (λ w. world.first w ≡ image.items) }
        ensures recorded { IfOk result (λ w. world.recorded w ≡ []) }
        ensures number { IfOk result (λ w. world.number w ≡ 0) }
        ensures fails { IfOk result (λ w. world.fails w ≡ fails.items) }
        ensures stop { IfOk result (λ w. world.stop w ≡ Some stop) }
        ensures most { IfOk result (λ w. world.most w ≡ 2 ^ 64 - 1) }
        ensures faults { IfOk result (λ w. world.faults w ≡ 0) }
        ensures sink_faults { IfOk result (λ w. world.sink_faults w ≡ 0) }
        ensures starved { IfOk result (λ w. world.starved w ≡ 0) }
    {
        let history = History::new(alloc, image).map_err(|_| Memory)?;
        Ok(World {
            history,
            plan: Plan {
                number: 0,
                fails,
                stop: Some(stop),
                most: u64::MAX,
            },
            faults: 0,
            sink_faults: 0,
            starved: 0,
        })
    }

    /// Each later `give` takes at most `most` bytes.
    pub fn limit_give(&mut self, most: u64)
        requires { 1 ≤ most }
        ensures most { world.most self.new ≡ most }
        ensures image { world.image self.new ≡ world.image self.old }
        ensures stable { world.stable self.new ≡ world.stable self.old }
        ensures pending { world.pending self.new ≡ world.pending self.old }
        ensures given { world.given self.new ≡ world.given self.old }
        ensures reads { world.reads self.new ≡ world.reads self.old }
        ensures first { world.first self.new ≡ world.first self.old }
        ensures recorded { world.recorded self.new ≡ world.recorded self.old }
        ensures clock { world.clock self.new ≡ world.clock self.old }
        ensures crash { (c : List ℕ) → world.may_leave self.new c ↔ world.may_leave self.old c }
        ensures time { (t : ℕ) (c g : List ℕ) → world.left_since self.new t c g ↔ world.left_since self.old t c g }
        ensures number { world.number self.new ≡ world.number self.old }
        ensures fails { world.fails self.new ≡ world.fails self.old }
        ensures stop { world.stop self.new ≡ world.stop self.old }
        ensures faults { world.faults self.new ≡ world.faults self.old }
        ensures sink_faults { world.sink_faults self.new ≡ world.sink_faults self.old }
        ensures starved { world.starved self.new ≡ world.starved self.old }
    {
        self.plan.most = most;
    }

    /// The bytes as a read gives them.
    pub fn image(&self) -> &[u8]
        ensures { result.now ≡ world.image self.now }
    {
        &self.history.image
    }

    /// The bytes given so far.
    pub fn given(&self) -> &[u8]
        ensures { result.now ≡ world.given self.now }
    {
        &self.history.given
    }

    /// Place and length of each read that succeeded.
    pub fn reads(&self) -> &[(u64, u64)]
        ensures { result.now ≡ world.reads self.now }
    {
        &self.history.reads
    }

    /// How many calls there were, those that failed too.
    pub fn calls(&self) -> u64
        ensures { result ≡ world.number self.now }
    {
        self.plan.number
    }

    /// How many calls failed for want of memory.
    pub fn starved(&self) -> u64
        ensures { result ≡ world.starved self.now }
    {
        self.starved
    }

    /// One outcome of a crash now: of pick 0 the image of the last sync, of pick 1 the image as read, and of any
    /// other pick the image as read with each byte written since the last sync set to `pick`.
    pub fn crash(&self, alloc: Global, pick: u8) -> Result<Vec<u8>, Memory>
        ensures outcome { IfOk result (λ bytes. world.may_leave self.now bytes.items) }
        ensures stable { pick ≡ 0 → IfOk result (λ bytes. bytes.items ≡ world.stable self.now) }
        ensures image { pick ≡ 1 → IfOk result (λ bytes. bytes.items ≡ world.image self.now) }
        ensures others { 2 ≤ pick → IfOk result (λ bytes. SetsWritten (world.image self.now) (world.pending self.now) pick bytes.items) }
    {
        self.history.crash(alloc, pick).map_err(|_| Memory)
    }

    /// All that a world tells is the replay of its record from the bytes at the start.
    pub fn follows_record(&self)
        ensures stable { world.stable self.now ≡ (replay (world.first self.now) (world.recorded self.now)).stable }
        ensures pending { world.pending self.now ≡ (replay (world.first self.now) (world.recorded self.now)).pending }
        ensures image { world.image self.now ≡ (replay (world.first self.now) (world.recorded self.now)).image }
        ensures given { world.given self.now ≡ (replay (world.first self.now) (world.recorded self.now)).given }
        ensures reads { world.reads self.now ≡ (replay (world.first self.now) (world.recorded self.now)).reads }
    {}

    /// What a crash now may leave is what the disk model allows, and nothing else.
    pub fn keeps_disk_model(&self)
        ensures { (c : List ℕ) → world.may_leave self.now c ↔ KeepsModel (world.stable self.now) (world.pending self.now) (length (world.image self.now)) c }
    {}
}
