//! Progress that somebody else is told too.

use trace_text::CheckProgress;

/// Tells on how far a command has come.
#[derive(Drop)]
pub(crate) struct LentProgress<'a, P>(pub(crate) &'a mut P);

impl<P: CheckProgress> CheckProgress for LentProgress<'_, P> {
    fn checked(&mut self, items: usize) {
        self.0.checked(items);
    }
}
