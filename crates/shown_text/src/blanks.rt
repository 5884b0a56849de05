//! What may stand between the fields of a line.

/// What a format takes between the fields of a line.
#[derive(Clone, Copy, Debug, PartialEq, Eq)]
pub enum Blanks {
    /// Spaces and tabs.
    SpacesAndTabs,
    /// Single spaces.
    SingleSpaces,
}
