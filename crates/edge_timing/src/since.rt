//! What a time begins with.

/// What a time begins with.
#[derive(Clone, Copy, Debug, PartialEq, Eq)]
pub enum Since {
    /// The same line fell.
    Fall,
    /// The same line rose.
    Rise,
    WeRise,
    DqChange,
    CleChange,
    AleChange,
    EnableChange,
    CleFall,
    AleFall,
    /// The cycle before of the same target.
    Command,
    Address,
    Input,
    Output,
    /// The last address before data.
    LastAddress,
    /// E0h.
    ColumnConfirm,
    /// The last address of 85h.
    ColumnAddress,
    LastOutput,
    Ready,
    /// The cycle that begins work.
    WorkCommand,
    WorkAddress,
    WorkInput,
}

impl Since {
    /// It in words, behind "after".
    pub fn words(self) -> &'static str {
        match self {
            Since::Fall => "it fell",
            Since::Rise => "it rose",
            Since::WeRise => "WE# rose",
            Since::DqChange => "DQ changed",
            Since::CleChange => "CLE changed",
            Since::AleChange => "ALE changed",
            Since::EnableChange => "CE# changed",
            Since::CleFall => "CLE fell",
            Since::AleFall => "ALE fell",
            Since::Command => "the command before",
            Since::Address => "the address before",
            Since::Input => "the input before",
            Since::Output => "the output before",
            Since::LastAddress => "the last address",
            Since::ColumnConfirm => "E0h",
            Since::ColumnAddress => "the last address of 85h",
            Since::LastOutput => "the last output",
            Since::Ready => "the ready",
            Since::WorkCommand => "the command that begins work",
            Since::WorkAddress => "the address that begins work",
            Since::WorkInput => "the input that begins work",
        }
    }
}
