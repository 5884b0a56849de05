//! What a line of a run file says.

use crate::polled::Polled;

/// One line of a run file.
#[derive(Clone, Copy, Debug, PartialEq, Eq)]
pub enum Statement<'a> {
    /// The file of the parameter page.
    Page {
        path: &'a str,
    },
    /// The number of targets, 1 to 4.
    Targets {
        count: u8,
    },
    /// The file of a die's image: the run begins with it, and leaves the die's pages in it.
    Image {
        target: u32,
        lun: u32,
        path: &'a str,
    },
    /// A job: its word file, the file of what the buffer holds first, and the file of what it holds after the end.
    Job {
        target: u32,
        lun: u32,
        base: u32,
        text: &'a str,
        input: Option<&'a str>,
        output: Option<&'a str>,
    },
    /// A LUN that does this work becomes ready when so many polls since its last ready have shown busy, 1 to 1,000.
    Polls {
        of: Polled,
        count: u32,
    },
    /// The ready of this number of the LUN, from 1, is with failure: of its work (FAIL), or of the page before it (FAILC).
    Fail {
        target: u32,
        lun: u32,
        ready: u32,
        before: bool,
    },
}

/// A statement with the number of its line, from 1.
#[derive(Clone, Copy, Debug, PartialEq, Eq)]
pub struct Numbered<'a> {
    pub line: usize,
    pub statement: Statement<'a>,
}
