//! Where the items that are judged stand in their trace.

/// Where the items that are judged stand in their trace: each where it is, or at these places.
#[derive(Clone, Copy)]
pub(crate) enum Places<'p> {
    All,
    At(&'p [usize]),
}

impl Places<'_> {
    /// The place of an item.
    pub(crate) fn of(self, item: usize) -> usize {
        match self {
            Places::All => item,
            Places::At(places) => places.get(item).copied().unwrap_or(0),
        }
    }
}
