//! A file that is to be written.

/// A file that is to be written: its path and its bytes.
#[derive(Clone, Copy)]
pub struct NewFile<'p, 'b> {
    pub path: &'p str,
    pub bytes: &'b [u8],
}
