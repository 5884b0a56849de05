//! Why a text is refused.
ghost use Rattle.std.specs.Prelude.{◌≡◌};
ghost use Rattle.micro_claims.specs.Codes.{reason_code, reason_number, reason_of};

use thiserror::Error;

/// A reason against a text. V1 to V5 are of the text as a whole; the others are of a word, in every way that leads to it.
#[derive(Clone, Copy, Debug, PartialEq, Eq, Error)]
pub enum Reason {
    #[error("the program has no words")]
    NoWords,
    #[error("a `loop` or a `next` has no partner")]
    LoopUnpaired,
    #[error("loops are nested deeper than four")]
    LoopsTooDeep,
    #[error("the branch leads back, or into or out of a loop")]
    BranchMisplaced,
    #[error("the last word isn't `end`")]
    LastWordNotEnd,
    #[error("this cycle isn't permitted here")]
    CycleForbidden,
    #[error("an address doesn't begin at the byte that is wanted next, or a register changes inside one")]
    AddressUnaligned,
    #[error("the bus would be let go in the middle of a command sequence")]
    HandoverInSequence,
    #[error("the program may go past the end of its buffer")]
    BufferPassed,
    #[error("a row or a plane may be outside the header's rows or the die")]
    RowOrPlaneOutside,
    #[error("a column may be past the end of the page or of the register")]
    ColumnTooLarge,
    #[error("no status may have been read before this branch")]
    NoStatus,
    #[error("the program may end while its LUN is busy, has a row queued or reads a cache, or in the middle of a command sequence")]
    EndsTooSoon,
    #[error("the bus cycles up to here are more than the budget in the header")]
    OverBudget,
    #[error("programs may not use this command here")]
    CommandNotAllowed,
}

impl Reason {
    /// Its code, `V1` to `V16`.
    pub fn code(self) -> &'static str
        ensures { result.now ≡ reason_code self }
    {
        match self {
            Reason::NoWords => "V1",
            Reason::LoopUnpaired => "V2",
            Reason::LoopsTooDeep => "V3",
            Reason::BranchMisplaced => "V4",
            Reason::LastWordNotEnd => "V5",
            Reason::CycleForbidden => "V7",
            Reason::AddressUnaligned => "V8",
            Reason::HandoverInSequence => "V9",
            Reason::BufferPassed => "V10",
            Reason::RowOrPlaneOutside => "V11",
            Reason::ColumnTooLarge => "V12",
            Reason::NoStatus => "V13",
            Reason::EndsTooSoon => "V14",
            Reason::OverBudget => "V15",
            Reason::CommandNotAllowed => "V16",
        }
    }

    /// The number of its code, 1 to 16.
    pub fn number(self) -> u32
        ensures { result ≡ reason_number self }
    {
        match self {
            Reason::NoWords => 1,
            Reason::LoopUnpaired => 2,
            Reason::LoopsTooDeep => 3,
            Reason::BranchMisplaced => 4,
            Reason::LastWordNotEnd => 5,
            Reason::CycleForbidden => 7,
            Reason::AddressUnaligned => 8,
            Reason::HandoverInSequence => 9,
            Reason::BufferPassed => 10,
            Reason::RowOrPlaneOutside => 11,
            Reason::ColumnTooLarge => 12,
            Reason::NoStatus => 13,
            Reason::EndsTooSoon => 14,
            Reason::OverBudget => 15,
            Reason::CommandNotAllowed => 16,
        }
    }

    /// The reason whose code has this number, if there is one.
    #[tactic(auto, unfolding(crate::specs::Codes::reason_of))]
    pub fn of_number(number: u32) -> Option<Reason>
        ensures { result ≡ reason_of number }
    {
        match number {
            1 => Some(Reason::NoWords),
            2 => Some(Reason::LoopUnpaired),
            3 => Some(Reason::LoopsTooDeep),
            4 => Some(Reason::BranchMisplaced),
            5 => Some(Reason::LastWordNotEnd),
            7 => Some(Reason::CycleForbidden),
            8 => Some(Reason::AddressUnaligned),
            9 => Some(Reason::HandoverInSequence),
            10 => Some(Reason::BufferPassed),
            11 => Some(Reason::RowOrPlaneOutside),
            12 => Some(Reason::ColumnTooLarge),
            13 => Some(Reason::NoStatus),
            14 => Some(Reason::EndsTooSoon),
            15 => Some(Reason::OverBudget),
            16 => Some(Reason::CommandNotAllowed),
            _ => None,
        }
    }
}

/// A word, counted from 0, with the reason against it.
#[derive(Clone, Copy, Debug, PartialEq, Eq)]
pub struct Fault {
    pub word: usize,
    pub reason: Reason,
}
