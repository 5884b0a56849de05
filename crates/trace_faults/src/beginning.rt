//! Where a recording begins.

/// Where the recording of a trace begins.
#[derive(Clone, Copy, Debug, PartialEq, Eq)]
pub enum Beginning {
    /// Before the first cycle: each LUN is ready, and nothing has happened to it.
    Start,
    /// In the middle: nobody knows what the LUNs did before.
    Middle,
}
