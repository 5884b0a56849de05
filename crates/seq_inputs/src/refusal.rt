//! What a command refuses.
ghost use Rattle.std.specs.Prelude.{◌≡◌, ◌++◌, IfOk, OnOk};
ghost use Rattle.std.specs.String.{string_bytes};
ghost use Rattle.seq_inputs.specs.Refusals.{line_of, number_of};

use crate::fault::Fault;
use crate::lines::push_refusal_line;
use std::alloc::{AllocError, Allocator};

/// What a command refuses: what is wrong with a file, and the line of the run file that names it, counted from 1, if one does.
#[derive(Clone, Copy, Debug, PartialEq, Eq)]
pub struct Refusal {
    pub fault: Fault,
    pub line: Option<usize>,
}

impl Refusal {
    /// The number that is told: the line of the run file, or else that of the line or the word in the file.
    pub fn number(self) -> usize
        ensures { result ≡ number_of self }
    {
        match self.line {
            Some(line) => line,
            None => self.fault.number(),
        }
    }

    /// Adds the line that says it.
    pub fn push_line<A: Allocator>(self, lines: &mut String<A>) -> Result<(), AllocError>
        ensures { OnOk result (string_bytes lines.new ≡ string_bytes lines.old ++ line_of self) }
    {
        push_refusal_line(lines, self.fault.code(), self.number())
    }

    /// The line that says it.
    pub fn text<A: Allocator>(self, alloc: A) -> Result<String<A>, AllocError>
        ensures { IfOk result (λ line. string_bytes line ≡ line_of self) }
    {
        let mut line = String::new(alloc);
        self.push_line(&mut line)?;
        Ok(line)
    }
}
