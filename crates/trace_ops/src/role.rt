//! What a cycle makes of an operation to a LUN.

/// What a cycle makes of an operation to a LUN.
#[derive(Clone, Copy)]
pub(crate) enum Role {
    Nothing,
    /// It asks for the LUN's status.
    Asks,
    /// It gives the LUN's column.
    Gives,
    /// It does, and the page is known that the outputs give.
    Holds,
    /// It goes back to the LUN's data.
    Returns,
}
