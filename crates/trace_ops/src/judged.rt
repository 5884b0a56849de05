//! An item as it is judged.

use crate::looks::Looks;
use onfi_cycle::Item;
use trace_faults::Verdict;

/// An item as it is judged, with a look at its target before and after it.
#[derive(Clone, Copy)]
pub(crate) struct Judged {
    pub(crate) number: usize,
    pub(crate) item: Item,
    /// Its target.
    pub(crate) ce: u8,
    /// Each target has one LUN.
    pub(crate) one_lun: bool,
    pub(crate) said: Verdict,
    pub(crate) before: Looks,
    pub(crate) after: Looks,
}
