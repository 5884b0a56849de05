//! A command on one of several files.

use crate::command::Command;
use program_commands::LintRequest;
use recording::{CheckRequest, TraceRequest};

/// A command on one of several files, whose lines name that.
#[derive(Clone, Copy)]
pub(crate) enum NamedCommand<'a> {
    Check(CheckRequest<'a>),
    Lint(LintRequest<'a>),
}

impl<'a> NamedCommand<'a> {
    /// As what a command works on one of several files, if it may.
    pub(crate) fn of(command: Command<'a>) -> Option<NamedCommand<'a>> {
        match command {
            Command::Check(request) => Some(NamedCommand::Check(request)),
            Command::Lint(request) => Some(NamedCommand::Lint(request)),
            Command::Assemble { .. }
            | Command::AssembleFor { .. }
            | Command::Verify(_)
            | Command::Explain { .. }
            | Command::Once { .. }
            | Command::Run(_)
            | Command::Capture(_)
            | Command::Timing(_)
            | Command::WriteImage(_)
            | Command::ListOperations(_)
            | Command::Draw(_)
            | Command::Disassemble { .. }
            | Command::MakePage { .. }
            | Command::TakePage(_)
            | Command::ShowPage(_)
            | Command::Upgrade { .. } => None,
        }
    }

    /// The same of one of these commands, if there are several.
    pub(crate) fn among(
        commands: &[Command<'_>],
        command: Command<'a>,
    ) -> Option<NamedCommand<'a>> {
        if commands.len() > 1 {
            NamedCommand::of(command)
        } else {
            None
        }
    }

    /// The path of its file.
    pub(crate) fn path(self) -> &'a str {
        match self {
            NamedCommand::Check(request) => request.trace.input,
            NamedCommand::Lint(request) => request.input,
        }
    }

    /// The same for another file.
    pub(crate) fn with_path(self, input: &'a str) -> Command<'a> {
        match self {
            NamedCommand::Check(request) => Command::Check(CheckRequest {
                trace: TraceRequest {
                    input,
                    ..request.trace
                },
                ..request
            }),
            NamedCommand::Lint(request) => Command::Lint(LintRequest { input, ..request }),
        }
    }
}
