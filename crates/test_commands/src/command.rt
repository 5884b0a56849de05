//! The commands that are tried, with what each is given.

use program_commands::{VerifyRequest, assemble_file, disassemble_file, upgrade_file, verify_file};
use recording::{CheckRequest, Ending};
use seq_files::MapFiles;
use seq_inputs::Console;
use std::alloc::{Allocator, Global};
use std::io::Write;
use trace_commands::check_trace;
use trace_text::NoProgress;

/// A command on files.
#[derive(Clone, Copy)]
pub(crate) enum Command<'a> {
    Assemble { input: &'a str, target: &'a str },
    Verify(VerifyRequest<'a>),
    Check(CheckRequest<'a>),
    Disassemble { input: &'a str },
    Upgrade { input: &'a str, target: &'a str },
}

impl Command<'_> {
    /// Whether all its memory is taken of the allocator that it is given.
    pub(crate) fn is_of_program(self) -> bool {
        match self {
            Command::Check(_) => false,
            Command::Assemble { .. }
            | Command::Verify(_)
            | Command::Disassemble { .. }
            | Command::Upgrade { .. } => true,
        }
    }

    /// Does the command by its own function. Of a program's commands memory is taken of this allocator, whatever it is.
    pub(crate) fn carry_out<A: Allocator + Clone, W: Write, E: Write>(
        self,
        alloc: A,
        rest: Global,
        files: &mut MapFiles,
        console: &mut Console<W, E, NoProgress>,
    ) -> Ending {
        let exit = match self {
            Command::Check(request) => return check_trace(rest, files, console, request),
            Command::Assemble { input, target } => {
                assemble_file(alloc, files, console, input, target)
            }
            Command::Verify(request) => verify_file(alloc, files, console, request),
            Command::Disassemble { input } => disassemble_file(alloc, files, console, input),
            Command::Upgrade { input, target } => {
                upgrade_file(alloc, files, console, input, target)
            }
        };
        Ending::Exit(exit)
    }
}
