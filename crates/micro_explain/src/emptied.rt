//! A register that may be empty.

use crate::command_at::CommandAt;
use crate::refused::Refused;
use onfi_cycle::Command;
use std::fmt;

/// What has left the register of the LUN empty: a command, such as the read of several planes, or nothing was read yet.
#[derive(Clone, Copy, Debug, PartialEq, Eq)]
pub struct Emptied {
    pub by: Option<CommandAt>,
}

impl Emptied {
    pub(crate) fn of(refused: &Refused<'_>) -> Emptied {
        Emptied {
            by: refused.whole_history().emptied,
        }
    }
}

impl fmt::Display for Emptied {
    fn fmt<W: fmt::Write>(&self, f: &mut fmt::Formatter<W>) -> fmt::Result {
        match self.by {
            None => f.write_str("the register may be empty: a read must come first"),
            Some(by) if matches!(by.command, Command::ReadConfirm | Command::CopybackRead) =>
                write!(
                    f,
                    "{by} reads several planes: `cmd 06`, `addr 0 5`, `cmd e0` must select one of them"
                ),
            Some(by) => write!(
                f,
                "{by} may have left the register empty: a read must come first"
            ),
        }
    }
}
