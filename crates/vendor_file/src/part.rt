//! What becomes of an item.

use onfi_cycle::Forbidden;

/// What becomes of an item of a trace in which a vendor's sequences are passed over.
#[derive(Clone, Copy, Debug, PartialEq, Eq)]
pub struct Part {
    /// The rule that it breaks as a cycle of a sequence that isn't next.
    pub rule: Option<Forbidden>,
    /// It belongs to no such sequence.
    pub is_kept: bool,
    /// A sequence begins with it.
    pub begins: bool,
    /// Where its target is in the file then; None where it is in no sequence.
    pub place: Option<usize>,
}
