//! What is read off a text before its first word.

/// What is read off a text before its first word.
#[derive(Clone, Copy)]
pub struct Bounds {
    pub rows: u32,
    pub buffer: u32,
    pub budget: u32,
    /// Some word is 31h, so the job's base begins a block.
    pub continues_cache_read: bool,
}
