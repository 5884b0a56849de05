//! Which notes count.

/// Which notes to a microprogram count, by their codes with commas between: `N1,N3`.
#[derive(Clone, Copy, Debug, PartialEq, Eq)]
pub struct NoteRules<'a> {
    /// Those that aren't told.
    pub allowed: Option<&'a str>,
    /// Those that aren't to pass.
    pub denied: Option<&'a str>,
}

// A list of codes has this one.
fn lists(codes: Option<&str>, code: &str) -> bool {
    match codes {
        Some(codes) => codes.split(',').any(|listed| listed == code),
        None => false,
    }
}

impl NoteRules<'_> {
    /// Each note is told, and each may pass.
    pub const NONE: NoteRules<'static> = NoteRules {
        allowed: None,
        denied: None,
    };

    /// Notes of this code are told.
    pub(crate) fn tells(self, code: &str) -> bool {
        !lists(self.allowed, code)
    }

    /// A note of this code isn't to pass.
    pub(crate) fn denies(self, code: &str) -> bool {
        lists(self.denied, code)
    }
}
