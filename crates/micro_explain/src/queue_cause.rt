//! A queue of rows that doesn't go together with what comes.

use crate::command_at::{CommandAt, command_of};
use crate::refused::Refused;
use micro_claims::{Drift, Planes, QueuedRows};
use onfi_cycle::Command;
use std::fmt;

/// Why the queue of the LUN doesn't go together with what comes. Each has the command that queued the last row.
#[derive(Clone, Copy, Debug, PartialEq, Eq)]
pub enum QueueCause {
    /// The queue has to be worked off first.
    Unfinished(CommandAt),
    /// The row may be on the plane of a queued one.
    SamePlane(CommandAt),
    /// The row may have another index than the queued ones.
    OtherIndex(CommandAt),
}

/// The command by which the last row was queued.
pub(crate) fn queued_by(refused: &Refused<'_>) -> CommandAt {
    match refused.state.lun.queue {
        QueuedRows::SomeRows { erase: true, .. } => refused.last(Command::BlockErasePlane),
        QueuedRows::SomeRows { erase: false, .. } => refused.last(Command::ProgramPlane),
        QueuedRows::SomeReads { .. } => refused.last(Command::ReadPlane),
        QueuedRows::NoRows | QueuedRows::AnyRows => last_queueing(refused),
    }
}

// The last command that queues a row.
fn last_queueing(refused: &Refused<'_>) -> CommandAt {
    let mut last = CommandAt {
        command: Command::BlockErasePlane,
        word: None,
    };
    for (place, word) in refused.words.iter().enumerate() {
        if let Some(command) = command_of(*word) {
            if place < refused.at && is_queueing(command) {
                last = CommandAt {
                    command,
                    word: Some(place),
                };
            }
        }
    }
    last
}

// The command queues a row.
fn is_queueing(command: Command) -> bool {
    matches!(
        command,
        Command::BlockErasePlane | Command::ProgramPlane | Command::ReadPlane
    )
}

impl QueueCause {
    /// Against work that wants the queue to be empty.
    pub(crate) fn of_lone_work(refused: &Refused<'_>) -> Option<QueueCause> {
        match refused.state.lun.queue {
            QueuedRows::NoRows => None,
            QueuedRows::SomeRows { .. } | QueuedRows::SomeReads { .. } | QueuedRows::AnyRows => {
                Some(QueueCause::Unfinished(queued_by(refused)))
            }
        }
    }

    /// Against the row of an opener.
    pub(crate) fn of_row(refused: &Refused<'_>, opener: Command) -> Option<QueueCause> {
        match refused.state.lun.queue {
            QueuedRows::NoRows => None,
            QueuedRows::AnyRows => Some(QueueCause::Unfinished(queued_by(refused))),
            QueuedRows::SomeRows {
                erase,
                planes,
                drift,
            } => {
                if opener == Command::Read || erase != (opener == Command::BlockErase) {
                    Some(QueueCause::Unfinished(queued_by(refused)))
                } else {
                    QueueCause::of_planes(refused, planes, drift)
                }
            }
            QueuedRows::SomeReads { planes, drift, .. } => {
                if opener == Command::Read {
                    QueueCause::of_planes(refused, planes, drift)
                } else {
                    Some(QueueCause::Unfinished(queued_by(refused)))
                }
            }
        }
    }

    // Against a row beside these.
    fn of_planes(refused: &Refused<'_>, planes: Planes, drift: Drift) -> Option<QueueCause> {
        if drift.ahead != drift.behind {
            Some(QueueCause::OtherIndex(queued_by(refused)))
        } else if planes.meet(refused.state.registers.planes) {
            Some(QueueCause::SamePlane(queued_by(refused)))
        } else {
            None
        }
    }
}

// What works a queue off: the erase, the program or the read of one more row.
fn last_of_queue(command: Command) -> &'static str {
    match command {
        Command::ProgramPlane => "`cmd 80` to `cmd 10`, on another plane, must come next",
        Command::ReadPlane => "`cmd 00` to `cmd 30`, on another plane, must come next",
        _ => "`cmd 60` to `cmd d0`, on another plane, must come next",
    }
}

impl fmt::Display for QueueCause {
    fn fmt<W: fmt::Write>(&self, f: &mut fmt::Formatter<W>) -> fmt::Result {
        match self {
            QueueCause::Unfinished(queued) => write!(
                f,
                "the row of {queued} is queued: {}",
                last_of_queue(queued.command)
            ),
            QueueCause::SamePlane(queued) => write!(
                f,
                "the row of {queued} is queued, and this one may be on the same plane: another `plane` is missing"
            ),
            QueueCause::OtherIndex(queued) => write!(
                f,
                "the row of {queued} is queued, and this one may have another index: no `row` or `rowadd` may come between"
            ),
        }
    }
}
