//! The rules of permitted items.
ghost use Rattle.std.specs.Prelude.{◌≡◌};
ghost use Rattle.onfi_cycle.specs.Codes.{forbidden_code, rule_number, rule_of};

use thiserror::Error;

/// The rules of permitted items, in the order in which they are tried. docs/model/MODEL.md states each in full.
#[derive(Clone, Copy, Debug, PartialEq, Eq, Error)]
pub enum Forbidden {
    #[error("the chip enable or the LUN isn't there, or what becomes ready isn't busy")]
    NotThere,
    #[error("the command is unknown, or the parameter page doesn't declare it")]
    CommandUnknown,
    #[error("a sequence is open on the target, so none may begin")]
    SequenceOpen,
    #[error("the target has several LUNs, which can't take the command, or not now")]
    SeveralLuns,
    #[error("a change of the read column needs one driver that is ready and gives a page or the parameter page")]
    NoColumnToChange,
    #[error("the command doesn't go on with the sequence of its target")]
    CommandMisplaced,
    #[error("the address doesn't go on with the sequence of its target")]
    AddressMisplaced,
    #[error("the row is outside the geometry")]
    RowOutside,
    #[error("the LUN is busy")]
    LunBusy,
    #[error("the queue of the LUN doesn't go together with this")]
    QueueClash,
    #[error("an input comes elsewhere than in the data of a program")]
    InputMisplaced,
    #[error("an output comes in an open sequence, or with other than one driver")]
    NoSoleDriver,
    #[error("the LUN that gives data is busy, lacks a register or has lost its column")]
    DataNotReady,
    #[error("the column is past the page or the register")]
    ColumnOutside,
    #[error("the cache read doesn't stand so")]
    CacheReadMisplaced,
    #[error("the LUN programs a page behind a cache program")]
    CacheProgramMisplaced,
    #[error("the LUN holds no page to copy there, or copies a group")]
    CopybackMisplaced,
    #[error("the LUN holds no page of the plane, or has a queue")]
    PlaneNotHeld,
}

impl Forbidden {
    /// Its code, `F1` to `F18`.
    pub fn code(self) -> &'static str
        ensures { result.now ≡ forbidden_code self }
    {
        match self {
            Forbidden::NotThere => "F1",
            Forbidden::CommandUnknown => "F2",
            Forbidden::SequenceOpen => "F3",
            Forbidden::SeveralLuns => "F4",
            Forbidden::NoColumnToChange => "F5",
            Forbidden::CommandMisplaced => "F6",
            Forbidden::AddressMisplaced => "F7",
            Forbidden::RowOutside => "F8",
            Forbidden::LunBusy => "F9",
            Forbidden::QueueClash => "F10",
            Forbidden::InputMisplaced => "F11",
            Forbidden::NoSoleDriver => "F12",
            Forbidden::DataNotReady => "F13",
            Forbidden::ColumnOutside => "F14",
            Forbidden::CacheReadMisplaced => "F15",
            Forbidden::CacheProgramMisplaced => "F16",
            Forbidden::CopybackMisplaced => "F17",
            Forbidden::PlaneNotHeld => "F18",
        }
    }

    /// The number of its code, 1 to 18.
    pub fn number(self) -> u32
        ensures { result ≡ rule_number self }
    {
        match self {
            Forbidden::NotThere => 1,
            Forbidden::CommandUnknown => 2,
            Forbidden::SequenceOpen => 3,
            Forbidden::SeveralLuns => 4,
            Forbidden::NoColumnToChange => 5,
            Forbidden::CommandMisplaced => 6,
            Forbidden::AddressMisplaced => 7,
            Forbidden::RowOutside => 8,
            Forbidden::LunBusy => 9,
            Forbidden::QueueClash => 10,
            Forbidden::InputMisplaced => 11,
            Forbidden::NoSoleDriver => 12,
            Forbidden::DataNotReady => 13,
            Forbidden::ColumnOutside => 14,
            Forbidden::CacheReadMisplaced => 15,
            Forbidden::CacheProgramMisplaced => 16,
            Forbidden::CopybackMisplaced => 17,
            Forbidden::PlaneNotHeld => 18,
        }
    }

    /// The rule whose code has this number, if there is one.
    #[tactic(auto, unfolding(crate::specs::Codes::rule_of))]
    pub fn of_number(number: u32) -> Option<Forbidden>
        ensures { result ≡ rule_of number }
    {
        match number {
            1 => Some(Forbidden::NotThere),
            2 => Some(Forbidden::CommandUnknown),
            3 => Some(Forbidden::SequenceOpen),
            4 => Some(Forbidden::SeveralLuns),
            5 => Some(Forbidden::NoColumnToChange),
            6 => Some(Forbidden::CommandMisplaced),
            7 => Some(Forbidden::AddressMisplaced),
            8 => Some(Forbidden::RowOutside),
            9 => Some(Forbidden::LunBusy),
            10 => Some(Forbidden::QueueClash),
            11 => Some(Forbidden::InputMisplaced),
            12 => Some(Forbidden::NoSoleDriver),
            13 => Some(Forbidden::DataNotReady),
            14 => Some(Forbidden::ColumnOutside),
            15 => Some(Forbidden::CacheReadMisplaced),
            16 => Some(Forbidden::CacheProgramMisplaced),
            17 => Some(Forbidden::CopybackMisplaced),
            18 => Some(Forbidden::PlaneNotHeld),
            _ => None,
        }
    }
}
