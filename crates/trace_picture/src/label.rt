//! What stands in a box.

use crate::word::Word;
use nand_geometry::RowParts;
use onfi_cycle::{Command, Status};

/// What the status byte of a poll says of its LUN.
#[derive(Clone, Copy, Debug, PartialEq, Eq)]
pub enum Shown {
    Busy,
    Ready,
    Failed,
}

impl Shown {
    // What a status byte says.
    fn of(byte: u8) -> Shown {
        let status = Status(byte);
        if !status.is_ready() {
            Shown::Busy
        } else if status.has_failed() {
            Shown::Failed
        } else {
            Shown::Ready
        }
    }

    fn name(self) -> &'static str {
        match self {
            Shown::Busy => "poll: busy",
            Shown::Ready => "poll: ready",
            Shown::Failed => "poll: failed",
        }
    }

    // The same in a narrow box.
    fn short_name(self) -> &'static str {
        match self {
            Shown::Busy => "busy",
            Shown::Ready => "ready",
            Shown::Failed => "fail",
        }
    }
}

/// The label of a box: a sequence, a poll, or a run of outputs.
#[derive(Clone, Copy, Debug, PartialEq, Eq)]
pub enum Label {
    /// A sequence: its opener, or the 15h that closed a program, the row or the column once it is whole, and how many inputs it has.
    Sequence {
        opener: Command,
        row: Option<RowParts>,
        column: Option<u16>,
        inputs: usize,
    },
    /// A question for a status: the LUN, where one is named, and what was shown.
    Status {
        lun: Option<u32>,
        shown: Option<Shown>,
    },
    /// So many outputs.
    Outputs {
        count: usize,
    },
    /// Cycles before any opener.
    Alone,
    /// Cycles after an item that broke a rule.
    Unjudged,
}

// The name of a sequence.
fn opener_name(opener: Command) -> &'static str {
    match opener {
        Command::Read => "read",
        Command::ChangeReadColumn | Command::ChangeReadColumnEnhanced => "column",
        Command::BlockErase => "erase",
        Command::PageProgram => "program",
        Command::ChangeWriteColumn => "copyback",
        Command::ProgramCache => "cache program",
        Command::ReadStatus | Command::ReadStatusEnhanced => "status",
        Command::ReadId => "id",
        Command::ReadParameterPage => "parameters",
        Command::ReadUniqueId => "unique id",
        Command::GetFeatures => "get features",
        Command::SetFeatures => "set features",
        Command::Reset => "reset",
        Command::ResetLun => "reset lun",
        Command::SynchronousReset => "sync reset",
        Command::ReadCacheSequential => "next page",
        Command::ReadCacheEnd => "last page",
        Command::ReadConfirm
        | Command::ReadPlane
        | Command::CopybackRead
        | Command::ChangeReadColumnConfirm
        | Command::BlockEraseConfirm
        | Command::BlockErasePlane
        | Command::ProgramConfirm
        | Command::ProgramPlane
        | Command::Unknown => "",
    }
}

// The words of a poll that are called so. A LUN is named where a target has several.
fn poll_words(lun: Option<u32>, name: &'static str, several: bool) -> [Option<Word>; 5] {
    let lun = match lun {
        Some(lun) if several => Some(Word::Lun(lun)),
        Some(_) | None => None,
    };
    [lun, Some(Word::Name(name)), None, None, None]
}

impl Label {
    /// That of a sequence whose opener alone has come.
    pub(crate) fn of_opener(opener: Command) -> Label {
        match opener {
            Command::ReadStatus | Command::ReadStatusEnhanced => Label::Status {
                lun: None,
                shown: None,
            },
            _ => Label::Sequence {
                opener,
                row: None,
                column: None,
                inputs: 0,
            },
        }
    }

    /// The same with a row.
    pub(crate) fn with_row(self, parts: RowParts) -> Label {
        match self {
            Label::Sequence {
                opener,
                row: _,
                column,
                inputs,
            } => Label::Sequence {
                opener,
                row: Some(parts),
                column,
                inputs,
            },
            Label::Status { lun: _, shown } => Label::Status {
                lun: Some(parts.lun),
                shown,
            },
            Label::Outputs { .. } | Label::Alone | Label::Unjudged => self,
        }
    }

    /// The same with a column.
    pub(crate) fn with_column(self, place: u16) -> Label {
        match self {
            Label::Sequence {
                opener,
                row,
                column: _,
                inputs,
            } => Label::Sequence {
                opener,
                row,
                column: Some(place),
                inputs,
            },
            Label::Status { .. } | Label::Outputs { .. } | Label::Alone | Label::Unjudged => self,
        }
    }

    /// The same with a command that goes on with it: 15h makes a program one of a cache.
    pub(crate) fn with_command(self, command: Command) -> Label {
        match (self, command) {
            (
                Label::Sequence {
                    opener: Command::PageProgram,
                    row,
                    column,
                    inputs,
                },
                Command::ProgramCache,
            ) => Label::Sequence {
                opener: Command::ProgramCache,
                row,
                column,
                inputs,
            },
            _ => self,
        }
    }

    /// The same with one input more.
    pub(crate) fn with_input(self) -> Label {
        match self {
            Label::Sequence {
                opener,
                row,
                column,
                inputs,
            } => Label::Sequence {
                opener,
                row,
                column,
                inputs: inputs.saturating_add(1),
            },
            Label::Status { .. } | Label::Outputs { .. } | Label::Alone | Label::Unjudged => self,
        }
    }

    /// The same with an output of this byte, where it stays in the box; None where outputs have a box of their own.
    pub(crate) fn with_output(self, byte: u8) -> Option<Label> {
        match self {
            Label::Status { lun, shown: _ } => Some(Label::Status {
                lun,
                shown: Some(Shown::of(byte)),
            }),
            Label::Outputs { count } => Some(Label::Outputs {
                count: count.saturating_add(1),
            }),
            Label::Alone => Some(self),
            Label::Sequence { .. } | Label::Unjudged => None,
        }
    }

    /// Its words, of which some are missing. LUNs are named where a target has several.
    pub(crate) fn words(self, several: bool) -> [Option<Word>; 5] {
        match self {
            Label::Sequence {
                opener,
                row,
                column,
                inputs,
            } => [
                Some(Word::Name(opener_name(opener))),
                match row {
                    Some(parts) if several => Some(Word::Lun(parts.lun)),
                    Some(_) => None,
                    None => column.map(|place| Word::Count(usize::from(place))),
                },
                row.map(|parts| Word::Block(parts.block)),
                match row {
                    Some(parts) if opener != Command::BlockErase => Some(Word::Page(parts.page)),
                    Some(_) | None => None,
                },
                if inputs > 0 {
                    Some(Word::Inputs(inputs))
                } else {
                    None
                },
            ],
            Label::Status { lun, shown } => {
                let name = match shown {
                    Some(shown) => shown.name(),
                    None => "poll",
                };
                poll_words(lun, name, several)
            }
            Label::Outputs { count } => [
                Some(Word::Name("out")),
                Some(Word::Count(count)),
                None,
                None,
                None,
            ],
            Label::Alone | Label::Unjudged => [None, None, None, None, None],
        }
    }

    /// Its words in a narrow box: those of a poll say its answer alone.
    pub(crate) fn short_words(self, several: bool) -> [Option<Word>; 5] {
        match self {
            Label::Status {
                lun,
                shown: Some(shown),
            } => poll_words(lun, shown.short_name(), several),
            _ => self.words(several),
        }
    }

    /// The class of its box in the picture's style.
    pub(crate) fn class(self) -> &'static str {
        match self {
            Label::Sequence { opener, .. } => match opener {
                Command::Read
                | Command::ChangeReadColumn
                | Command::ChangeReadColumnEnhanced
                | Command::ReadCacheSequential
                | Command::ReadCacheEnd => "read",
                Command::PageProgram | Command::ChangeWriteColumn | Command::ProgramCache => {
                    "program"
                }
                Command::BlockErase => "erase",
                _ => "other",
            },
            Label::Status { .. } => "status",
            Label::Outputs { .. } => "read",
            Label::Alone | Label::Unjudged => "lone",
        }
    }
}
