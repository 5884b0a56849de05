//! A command that isn't permitted.

use crate::cache_cause::CacheCause;
use crate::command_at::CommandAt;
use crate::lun_cause::LunCause;
use crate::open::Open;
use crate::program_cause::ProgramCause;
use crate::read_column_cause::ReadColumnCause;
use crate::refused::Refused;
use onfi_cycle::{Command, Forbidden};
use std::fmt;

/// Why a command may not be permitted.
#[derive(Clone, Copy)]
pub enum CommandCause {
    /// It begins a sequence while one is open.
    SequenceOpen(Open),
    /// It changes the read column.
    ReadColumn(ReadColumnCause),
    /// It goes on with a sequence, and another one is open, or it isn't its turn.
    Misplaced(Open),
    /// It goes on with a sequence that this opener begins, and none is open.
    NotBegun { opener: Command },
    /// The LUN may not take it.
    Lun(LunCause),
    /// It goes on with a cache read, ends it, or comes amid it.
    Cache(CacheCause),
    /// It is no closer of this program.
    Program(ProgramCause),
}

// The command that begins what a command goes on with.
fn opener_of(closer: Command) -> Option<Command> {
    match closer {
        Command::ReadConfirm | Command::ReadPlane | Command::CopybackRead => Some(Command::Read),
        Command::ChangeReadColumnConfirm => Some(Command::ChangeReadColumn),
        Command::BlockEraseConfirm | Command::BlockErasePlane => Some(Command::BlockErase),
        Command::ChangeWriteColumn
        | Command::ProgramConfirm
        | Command::ProgramPlane
        | Command::ProgramCache => Some(Command::PageProgram),
        Command::Read
        | Command::ChangeReadColumn
        | Command::ChangeReadColumnEnhanced
        | Command::BlockErase
        | Command::ReadStatus
        | Command::ReadStatusEnhanced
        | Command::PageProgram
        | Command::ReadId
        | Command::ReadParameterPage
        | Command::Reset
        | Command::ReadCacheSequential
        | Command::ReadCacheEnd
        | Command::ReadUniqueId
        | Command::GetFeatures
        | Command::SetFeatures
        | Command::ResetLun
        | Command::SynchronousReset
        | Command::Unknown => None,
    }
}

// The command only goes on with a sequence: it is no opener, or a Change Write Column where no copyback is declared.
fn only_goes_on(refused: &Refused<'_>, command: Command) -> bool {
    !command.is_opener() || command == Command::ChangeWriteColumn && !refused.copies_pages()
}

impl CommandCause {
    pub(crate) fn of(refused: &Refused<'_>, command: Command) -> Option<CommandCause> {
        if refused.state.target.tail.wants(command) {
            return CommandCause::of_wanted(refused, command);
        }
        if only_goes_on(refused, command) {
            return CommandCause::of_closer(refused, command);
        }
        if refused.state.may_be_open() {
            return Some(CommandCause::SequenceOpen(refused.open()));
        }
        CommandCause::of_opener(refused, command)
    }

    // Against an opener while nothing is open.
    fn of_opener(refused: &Refused<'_>, opener: Command) -> Option<CommandCause> {
        match opener {
            Command::ChangeReadColumn => {
                Some(CommandCause::ReadColumn(ReadColumnCause::of(refused)?))
            }
            Command::Read
            | Command::ChangeReadColumnEnhanced
            | Command::BlockErase
            | Command::PageProgram
            | Command::ChangeWriteColumn => Some(CommandCause::Lun(LunCause::of_busy(refused)?)),
            Command::ReadId
            | Command::ReadParameterPage
            | Command::ReadUniqueId
            | Command::GetFeatures
            | Command::SetFeatures => Some(CommandCause::Lun(LunCause::of_lone_work(refused)?)),
            Command::ReadCacheSequential => {
                Some(CommandCause::Cache(CacheCause::of_next(refused)?))
            }
            Command::ReadCacheEnd => Some(CommandCause::Cache(CacheCause::of_end(refused)?)),
            Command::ReadConfirm
            | Command::ReadPlane
            | Command::CopybackRead
            | Command::ChangeReadColumnConfirm
            | Command::BlockEraseConfirm
            | Command::BlockErasePlane
            | Command::ReadStatus
            | Command::ReadStatusEnhanced
            | Command::ProgramConfirm
            | Command::ProgramPlane
            | Command::ProgramCache
            | Command::Reset
            | Command::ResetLun
            | Command::SynchronousReset
            | Command::Unknown => None,
        }
    }

    // Against a command that the sequence wants.
    fn of_wanted(refused: &Refused<'_>, closer: Command) -> Option<CommandCause> {
        match closer {
            Command::ReadConfirm | Command::ReadPlane | Command::CopybackRead => {
                Some(CommandCause::Cache(CacheCause::of_page_read(refused)?))
            }
            Command::ReadCacheSequential if refused.is_wide() => {
                Some(CommandCause::Cache(CacheCause::of_row(refused)?))
            }
            Command::ReadCacheSequential => Some(CommandCause::SequenceOpen(refused.open())),
            Command::ProgramCache => Some(CommandCause::Program(ProgramCause::of(refused)?)),
            _ => Some(CommandCause::ReadColumn(ReadColumnCause::of(refused)?)),
        }
    }

    // Against a command that only goes on with a sequence, and that this one doesn't want.
    fn of_closer(refused: &Refused<'_>, closer: Command) -> Option<CommandCause> {
        let open = refused.open();
        match open.command {
            None if !refused.state.target.tail.is_open() => Some(CommandCause::NotBegun {
                opener: opener_of(closer)?,
            }),
            _ => Some(CommandCause::Misplaced(open)),
        }
    }

    /// The rule that it breaks.
    pub fn rule(self) -> Forbidden {
        match self {
            CommandCause::SequenceOpen(_) => Forbidden::SequenceOpen,
            CommandCause::ReadColumn(_) => Forbidden::NoColumnToChange,
            CommandCause::Misplaced(_) | CommandCause::NotBegun { .. } => {
                Forbidden::CommandMisplaced
            }
            CommandCause::Lun(lun) => lun.rule(),
            CommandCause::Cache(_) => Forbidden::CacheReadMisplaced,
            CommandCause::Program(cause) => cause.rule(),
        }
    }
}

impl fmt::Display for CommandCause {
    fn fmt<W: fmt::Write>(&self, f: &mut fmt::Formatter<W>) -> fmt::Result {
        match self {
            CommandCause::SequenceOpen(open) | CommandCause::Misplaced(open) => {
                write!(f, "{open}")
            }
            CommandCause::ReadColumn(cause) => write!(f, "{cause}"),
            CommandCause::NotBegun { opener } => {
                let opener = CommandAt {
                    command: *opener,
                    word: None,
                };
                write!(f, "no sequence is open: {opener} must begin one")
            }
            CommandCause::Lun(lun) => write!(f, "{lun}"),
            CommandCause::Cache(cause) => write!(f, "{cause}"),
            CommandCause::Program(cause) => write!(f, "{cause}"),
        }
    }
}
