//! What is known of a growth.

/// What is known of how much a number has grown: nothing, the least, or the least and the most.
#[derive(Clone, Copy)]
pub(crate) enum Grows {
    Not,
    AtLeast,
    Between,
}
