//! As what a trace is drawn.

/// The form of a drawing: as what a trace is drawn.
#[derive(Clone, Copy, Debug, PartialEq, Eq)]
pub enum DrawForm {
    /// A value change dump, which waveform viewers open.
    Waveform,
    /// An SVG.
    Picture,
    /// A page for a browser: the same picture, and the text of the trace beside it.
    Page,
}
