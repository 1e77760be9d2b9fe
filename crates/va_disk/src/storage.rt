// What contracts see of a disk.
ghost use Rattle.std.specs.Prelude.{List, ℕ};

/// What contracts see of a disk. Definitions take all of it at once, as `D.Storage`.
pub trait Storage {
    /// Whether it tells its contents.
    ghost told: { Type 0 };

    /// Whether it keeps the disk model.
    ghost honest: { Type 0 };

    /// The length, which is always told.
    ghost size: { Self → ℕ };

    /// The bytes as a read gives them.
    ghost image: { Self → List ℕ };

    /// The reads that succeeded.
    ghost reads: { Self → List (ℕ × ℕ) };

    /// The bytes given so far, which no call of this trait changes.
    ghost given: { Self → List ℕ };

    /// The moment, as a number that doesn't fall.
    ghost clock: { Self → ℕ };

    /// What a crash at this moment may leave.
    ghost may_leave: { Self → List ℕ → Type 0 };

    /// What a crash at some moment from that one on might have left, and the bytes handed out before it.
    ghost left_since: { Self → ℕ → List ℕ → List ℕ → Type 0 };

    /// How often it has failed.
    ghost faults: { Self → ℕ };

    /// How often its sink has failed: 0 for a disk that is no desk.
    ghost sink_faults: { Self → ℕ };
}
