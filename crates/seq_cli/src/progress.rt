//! How far a command has come, on a terminal.

use seq_run::{Phase, RunProgress};
use std::io::{IsTerminal, Write};
use trace_text::CheckProgress;

/// Says how far a command has come where it is given a terminal, and else nothing.
#[derive(Drop)]
pub struct TerminalProgress<E: Write> {
    errors: E,
    is_terminal: bool,
}

impl<E: Write + IsTerminal> TerminalProgress<E> {
    /// Says it on these errors, if they are a terminal.
    pub fn new(errors: E) -> TerminalProgress<E> {
        let is_terminal = errors.is_terminal();
        TerminalProgress {
            errors,
            is_terminal,
        }
    }
}

impl<E: Write> CheckProgress for TerminalProgress<E> {
    fn checked(&mut self, items: usize) {
        if self.is_terminal {
            let _ = writeln!(&mut self.errors, "{items} items checked");
        }
    }
}

impl<E: Write> RunProgress for TerminalProgress<E> {
    fn begin(&mut self, phase: Phase) {
        if !self.is_terminal {
            return;
        }
        let errors = &mut self.errors;
        let _ = match phase {
            Phase::Reading => writeln!(errors, "reading"),
            Phase::Running { jobs: 1 } => writeln!(errors, "running 1 job"),
            Phase::Running { jobs } => writeln!(errors, "running {jobs} jobs"),
            Phase::Writing => writeln!(errors, "writing"),
        };
    }
}
