//! The readies of a run that are with failure.

/// A ready that is with failure: which of its LUN, counted from 1, and whether it tells of its work (FAIL) or of the page before it (FAILC).
#[derive(Clone, Copy, Debug, PartialEq, Eq, PartialOrd, Ord)]
pub struct Failing {
    pub target: u8,
    pub lun: u8,
    pub ready: u64,
    pub before: bool,
}
