//! How far a check has come.

/// Is told how far a check of a trace has come.
pub trait CheckProgress {
    /// So many items are permitted, a million or several, and there are more.
    fn checked(&mut self, items: usize);
}

/// Takes no notice of it.
#[derive(Drop)]
pub struct NoProgress;

impl CheckProgress for NoProgress {
    fn checked(&mut self, _items: usize) {}
}
