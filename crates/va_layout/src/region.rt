// Which of the two regions.
ghost use Rattle.std.specs.Prelude.{◌≡◌};
ghost use Rattle.va_layout.specs.Layout.{other_region};

/// One of the two regions that have marks and codes.
#[derive(Clone, Copy, Debug, PartialEq, Eq)]
pub enum Region {
    A,
    B,
}

impl Region {
    /// The one that this isn't.
    pub fn other(self) -> Region
        ensures { result ≡ other_region self }
    {
        match self {
            Region::A => Region::B,
            Region::B => Region::A,
        }
    }
}
