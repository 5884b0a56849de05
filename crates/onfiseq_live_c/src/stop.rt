//! Why a step of a job isn't due, or isn't finished.
ghost use Rattle.std.specs.Prelude.{◌≡◌};
ghost use Rattle.onfiseq_live_c.specs.Stop.{letter_of, number_of};

use micro_word::WordRefusal;
use onfi_cycle::Forbidden;
use seq_core::JobFault;
use word_file::WordMissing;

/// Why a step of a job isn't due, or isn't finished, or why a job isn't begun. Nothing has changed then.
#[derive(Clone, Copy, Debug, PartialEq, Eq)]
pub enum Stop {
    /// A record isn't what a call of this library left.
    Damaged,
    /// The job has ended with this code.
    Ended(u8),
    /// Another LUN has the bus.
    Held,
    /// The word can't be read.
    Word(WordMissing),
    /// The word reaches past the buffer.
    BufferTooShort,
    /// It opens a fifth loop.
    TooDeep,
    /// The row of its address isn't there.
    RowOutside,
    /// A cycle of it would break this rule.
    Breaks(Forbidden),
    /// Its outputs don't give so many bytes.
    WrongCount,
    /// The job isn't one of this channel.
    Unfit(JobFault),
}

impl Stop {
    /// Its letter.
    pub(crate) fn letter(self) -> u8
        ensures { result ≡ letter_of self }
    {
        match self {
            Stop::Damaged => b'D',
            Stop::Ended(_) => b'E',
            Stop::Held => b'H',
            Stop::Word(WordMissing::Fault(_)) => b'M',
            Stop::Word(WordMissing::PastTheEnd) => b'N',
            Stop::BufferTooShort => b'B',
            Stop::TooDeep => b'L',
            Stop::RowOutside => b'R',
            Stop::Breaks(_) => b'F',
            Stop::WrongCount => b'C',
            Stop::Unfit(_) => b'S',
        }
    }

    /// Its number: the code of an end, or that of a fault or a rule, else 0.
    pub(crate) fn number(self) -> u32
        ensures { result ≡ number_of self }
    {
        match self {
            Stop::Ended(code) => u32::from(code),
            Stop::Word(WordMissing::Fault(WordRefusal::Fault { fault, .. })) => fault.number(),
            Stop::Breaks(rule) => rule.number(),
            Stop::Unfit(fault) => fault.number(),
            Stop::Damaged
            | Stop::Held
            | Stop::Word(WordMissing::Fault(WordRefusal::OutOfMemory))
            | Stop::Word(WordMissing::PastTheEnd)
            | Stop::BufferTooShort
            | Stop::TooDeep
            | Stop::RowOutside
            | Stop::WrongCount => 0,
        }
    }
}
