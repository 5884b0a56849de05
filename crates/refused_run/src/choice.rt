//! What the dies of a run do where they may do several things.

use crate::other_work::OtherWork;
use std::fmt;

/// What a die does before a word and in it, where it may do several things.
#[derive(Clone, Copy, Debug, PartialEq, Eq)]
pub enum Act {
    /// The word comes. Before it the LUN may become ready, with failure or without; a poll brings this status.
    Come { ready: Option<bool>, status: u8 },
    /// Another LUN has the bus first.
    Other(OtherWork),
}

impl Default for Act {
    /// The word comes, and a poll of it brings no bit.
    fn default() -> Act {
        Act::Come {
            ready: None,
            status: 0,
        }
    }
}

/// What was chosen before a word or in it, and isn't what a die mostly does.
#[derive(Clone, Copy, Debug, PartialEq, Eq)]
pub struct Choice {
    pub word: usize,
    pub act: Act,
}

impl fmt::Display for Choice {
    fn fmt<W: fmt::Write>(&self, f: &mut fmt::Formatter<W>) -> fmt::Result {
        let word = self.word;
        match self.act {
            Act::Come {
                ready: Some(true),
                status,
            } => write!(
                f,
                "the poll at word {word} tells of a failure ({status:02x})"
            ),
            Act::Come {
                ready: Some(false),
                status,
            } => write!(f, "the poll at word {word} says ready ({status:02x})"),
            Act::Come {
                ready: None,
                status,
            } => write!(f, "the poll at word {word} says {status:02x}"),
            Act::Other(OtherWork::Erase) => {
                write!(f, "before word {word} LUN 1 begins to erase a block")
            }
            Act::Other(OtherWork::Poll) => {
                write!(f, "before word {word} LUN 1 asks for its status")
            }
            Act::Other(OtherWork::Read) => {
                write!(f, "before word {word} LUN 1 begins to read a page")
            }
        }
    }
}
