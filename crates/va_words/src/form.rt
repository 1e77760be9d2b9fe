// What the words ask for, and why they don't.

/// What a run does.
#[derive(Clone, Copy, Debug, PartialEq, Eq)]
pub enum Mode {
    /// Runs lines of commands. It is asked for by no word.
    Plain,
    /// Runs the lines that insert the records of a CSV text: `--csv`.
    Csv,
    /// Gives the live vectors as records of CSV: `--export`.
    Export,
    /// Makes a store of that many vectors and searches it: `--work N` or `--work=N`, N from 1 to 20,000.
    Work(u32),
}

/// Why words give no mode.
#[derive(Clone, Copy, Debug, PartialEq, Eq)]
pub enum WordsFault {
    /// The words have none of the forms.
    Usage,
    /// No memory was found.
    Memory,
}
