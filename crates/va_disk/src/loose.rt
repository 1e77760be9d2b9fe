// A desk of which nothing is told: one byte of its disk changes once something was given.
ghost use Rattle.std.specs.Prelude.{◌≡◌, [], length, false};
ghost use Rattle.va_disk.specs.Loose as loose;
ghost use Rattle.va_disk.specs.ReplayLaws.{image_is_bounded};
ghost use Rattle.va_disk.specs.World as world;

use crate::{Desk, Disk, DiskFault, SinkFault, Storage, World};

/// A world of which, once something was given, each read that covers the byte `at` gives `value` there.
#[derive(Drop)]
pub struct Loose {
    world: World,
    at: u64,
    value: u8,
    has_given: bool,
}

impl Loose {
    /// Nothing was given yet.
    pub fn new(world: World, at: u64, value: u8) -> Loose
        ensures world { loose.world result ≡ world }
        ensures at { loose.at result ≡ at }
        ensures value { loose.value result ≡ value }
        ensures given { loose.has_given result ≡ false }
    {
        Loose {
            world,
            at,
            value,
            has_given: false,
        }
    }

    /// The world that each call is passed on to.
    pub fn world(&self) -> &World
        ensures { result.now ≡ loose.world self.now }
    {
        &self.world
    }
}

impl Storage for Loose {
    ghost told = { ⊥ };

    ghost honest = { ⊥ };

    ghost size = { λ desk. length (world.image desk.world) };

    ghost image = { λ desk. [] };

    ghost reads = { λ desk. [] };

    ghost given = { λ desk. [] };

    ghost clock = { λ desk. 0 };

    ghost may_leave = { λ desk c. ⊥ };

    ghost left_since = { λ desk t c g. ⊥ };

    ghost faults = { λ desk. world.faults desk.world };

    ghost sink_faults = { λ desk. world.sink_faults desk.world };
}

impl Disk for Loose {
    ghost bounded = { λ desk. image_is_bounded desk.world.history.image };

    ghost length_told = { λ desk told. absurd told };

    ghost is_outcome = { λ desk told. absurd told };

    ghost counts_now = { λ desk t c honest. absurd honest };

    ghost only_now = { λ desk c g honest. absurd honest };

    fn len(&self) -> u64 {
        self.world.len()
    }

    fn read(&mut self, at: u64, out: &mut [u8]) -> Result<(), DiskFault> {
        let done = self.world.read(at, out);
        if self.has_given && self.at >= at {
            if let Some(byte) = out.get_mut((self.at - at) as usize) {
                *byte = self.value;
            }
        }
        done
    }

    fn write(&mut self, at: u64, bytes: &[u8]) -> Result<(), DiskFault> {
        self.world.write(at, bytes)
    }

    fn sync(&mut self) -> Result<(), DiskFault> {
        self.world.sync()
    }
}

impl Desk for Loose {
    fn give(&mut self, bytes: &[u8]) -> Result<usize, SinkFault> {
        self.has_given = true;
        self.world.give(bytes)
    }
}
