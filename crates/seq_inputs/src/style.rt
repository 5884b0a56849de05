//! How a command says what is wrong.

/// How a command says on standard error what is wrong.
#[derive(Clone, Copy, Debug, PartialEq, Eq)]
pub enum Style {
    /// In words for a person: `FILE:LINE: what is wrong (CODE)`.
    Plain,
    /// As JSON for a tool: one object a line.
    Json,
}
