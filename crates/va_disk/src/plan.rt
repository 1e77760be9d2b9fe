// Which calls are to fail.
ghost use Rattle.std.specs.Prelude.{◌≡◌, ◌+◌, ◌-◌, ◌^◌, ◌≤◌, min, Some, None, List, ℕ};
ghost use Rattle.va_disk.specs.Plan.{fails_at, raised};

/// The numbers of the calls that fail, and how many bytes one call moves at most.
#[derive(Drop)]
pub struct Plan {
    /// The number of the next call, from 0.
    pub number: u64,
    pub fails: Vec<u64>,
    /// All calls from this one on fail too.
    pub stop: Option<u64>,
    pub most: u64,
    pub ghost some: { 1 ≤ most },
}

impl Plan {
    /// Takes the number of a call, and tells whether it is to fail.
    pub fn fails_next(&mut self) -> bool
        ensures fails { result ≡ fails_at self.old.fails.items self.old.stop self.old.number }
        ensures number { self.new.number ≡ raised self.old.number }
        ensures list { self.new.fails ≡ self.old.fails }
        ensures stop { self.new.stop ≡ self.old.stop }
        ensures most { self.new.most ≡ self.old.most }
    {
        let number = self.number;
        self.number = number.saturating_add(1);
        let stopped = match self.stop {
            Some(stop) => number >= stop,
            None => false,
        };
        stopped || self.fails.as_slice().contains(&number)
    }
}
