// The one answer that no clause ties to a cause.

/// No memory was found.
#[derive(Clone, Copy, Debug, PartialEq, Eq)]
pub struct Memory;
