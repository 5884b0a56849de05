//! Where a row lies.

/// Where a row lies. The LUN that three bytes name may be far above any that is there, so it has 32 bits here.
#[derive(Clone, Copy, Debug, PartialEq, Eq)]
pub struct RowParts {
    /// The LUN, from 0.
    pub lun: u32,
    /// The block of the LUN, from 0.
    pub block: u32,
    /// The page of the block, from 0.
    pub page: u32,
}
