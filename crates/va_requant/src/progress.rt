// How far a refitting has come.

/// How far a refitting has come.
#[derive(Clone, Copy, Debug, PartialEq, Eq)]
pub enum Progress {
    /// So many ids were converted, and so many are left.
    More { done: u32, left: u32 },
    /// So many ids were converted, none is left, and the new marks are selected.
    Switched { done: u32 },
}
