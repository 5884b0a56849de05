//! The sequence that is open on a target, in words.

use onfi_cycle::{Command, DataPhase, Opening, TailFacts};
use std::fmt;

/// What the sequence of a target wants next.
#[derive(Clone, Copy)]
pub enum Wanted {
    /// An address, of so many that follow its opener.
    Address { number: usize, count: usize },
    /// The command that closes it.
    Closer(u8),
    /// The data of a program.
    Data,
    /// One of the two bytes of a column.
    Column { number: u8 },
    /// One of the four bytes of a feature.
    FeatureByte { number: usize },
}

// What an opener with these addresses wants next, if it wants anything.
fn wanted_by(opening: Opening) -> Option<Wanted> {
    let count = opening.opener.address_cycles();
    if opening.addresses < count {
        return Some(Wanted::Address {
            number: opening.addresses + 1,
            count,
        });
    }
    match opening.opener {
        Command::Read => Some(Wanted::Closer(0x30)),
        Command::ChangeReadColumn | Command::ChangeReadColumnEnhanced => {
            Some(Wanted::Closer(0xe0))
        }
        Command::BlockErase => Some(Wanted::Closer(0xd0)),
        _ => None,
    }
}

/// The opener of the sequence that a tail is in, where one is open. In the data of a program the tail has forgotten it: a program that copies a page began with
/// another one.
pub fn opener_of(tail: TailFacts, copies: bool) -> Option<u8> {
    match tail.phase {
        DataPhase::Inputs | DataPhase::FirstColumn | DataPhase::SecondColumn => {
            Some(if copies { 0x85 } else { 0x80 })
        }
        DataPhase::FeatureInputs => Some(0xef),
        DataPhase::Outside => tail.opening?.opener.opcode(),
    }
}

impl Wanted {
    /// What a target wants next whose tail has these facts, if it wants anything.
    pub fn of(tail: TailFacts) -> Option<Wanted> {
        match tail.phase {
            DataPhase::Inputs => Some(Wanted::Data),
            DataPhase::FirstColumn => Some(Wanted::Column { number: 1 }),
            DataPhase::SecondColumn => Some(Wanted::Column { number: 2 }),
            DataPhase::FeatureInputs => Some(Wanted::FeatureByte {
                number: tail.inputs.saturating_add(1),
            }),
            DataPhase::Outside => wanted_by(tail.opening?),
        }
    }
}

impl fmt::Display for Wanted {
    fn fmt<W: fmt::Write>(&self, f: &mut fmt::Formatter<W>) -> fmt::Result {
        match *self {
            Wanted::Address { number, count } => {
                write!(f, "wants address {number} of {count} next")
            }
            Wanted::Closer(byte) => write!(f, "wants `{byte:02x}` next"),
            Wanted::Data => f.write_str("takes data up to its `10`"),
            Wanted::Column { number } => write!(f, "wants byte {number} of a column next"),
            Wanted::FeatureByte { number } => {
                write!(f, "wants byte {number} of its feature next")
            }
        }
    }
}

/// A command of a trace, and its item, from 0 on, where that is known.
#[derive(Clone, Copy)]
pub struct CommandAt {
    pub byte: u8,
    pub item: Option<usize>,
}

impl CommandAt {
    /// Writes the command, and the line in which it stands, where that is known.
    pub(crate) fn write_in<W: fmt::Write>(
        self,
        f: &mut fmt::Formatter<W>,
        line: Option<usize>,
    ) -> fmt::Result {
        match line {
            Some(line) => write!(f, "`{:02x}` (line {line})", self.byte),
            None => write!(f, "`{:02x}`", self.byte),
        }
    }
}

/// The sequence that a target is in: its opener, and what it wants next.
#[derive(Clone, Copy)]
pub struct OpenSequence {
    pub opener: CommandAt,
    pub wanted: Wanted,
}

impl OpenSequence {
    /// Writes the sequence, whose opener stands in this line.
    pub(crate) fn write_in<W: fmt::Write>(
        self,
        f: &mut fmt::Formatter<W>,
        line: Option<usize>,
    ) -> fmt::Result {
        self.opener.write_in(f, line)?;
        write!(f, " {}", self.wanted)
    }
}
