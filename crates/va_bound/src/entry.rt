// What a slice adds to a distance.
ghost use Rattle.std.specs.Prelude.{◌≡◌, ◌+◌, ◌≤◌, ℕ};
ghost use Rattle.va_bound.specs.Extremes.{IsExtreme, IsSmall};

/// The least and the greatest part of a distance over some values of a dimension, and the least values that
/// attain them.
#[derive(Clone, Copy)]
pub struct Entry {
    pub least: u64,
    pub greatest: u64,
    pub least_at: u8,
    pub greatest_at: u8,
}

impl Entry {
    // Of an empty slice, which no cell names.
    pub fn none() -> Entry
        ensures { IsSmall result }
    {
        Entry::of(0, 0)
    }

    // Over one value.
    pub fn of(value: u8, part: u64) -> Entry
        ensures extreme { (p : ℕ → ℕ) → part ≡ p value → IsExtreme p value 0 result }
        ensures small { part ≤ 68182614000 → IsSmall result }
    {
        Entry {
            least: part,
            greatest: part,
            least_at: value,
            greatest_at: value,
        }
    }

    // Over the value before these too. Of values that attain an extreme alike the least one counts.
    pub fn with_value_before(self, value: u8, part: u64) -> Entry
        ensures extreme { (p : ℕ → ℕ) (n : ℕ) → IsExtreme p (value + 1) n self → part ≡ p value → IsExtreme p value (n + 1) result }
        ensures small { IsSmall self → part ≤ 68182614000 → IsSmall result }
    {
        let mut entry = self;
        if part <= entry.least {
            entry.least = part;
            entry.least_at = value;
        }
        if part >= entry.greatest {
            entry.greatest = part;
            entry.greatest_at = value;
        }
        entry
    }
}
