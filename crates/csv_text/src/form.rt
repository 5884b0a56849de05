//! How the rows of a CSV are read.

/// What separates its fields, what the times of its rows are, and how many samples there are in a second, 0 where nothing says so.
#[derive(Clone, Copy, Debug, PartialEq, Eq)]
pub struct Form {
    pub separator: u8,
    /// The first column has the times.
    pub has_times: bool,
    /// They are seconds, also without a point.
    pub in_seconds: bool,
    pub rate: u64,
}
