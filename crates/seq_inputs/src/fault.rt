//! What is wrong with a file.
ghost use Rattle.std.specs.Prelude.{◌≡◌};
ghost use Rattle.seq_inputs.specs.Refusals.{code_of, number_in};

use die_model::ImageFault;
use micro_asm::AsmFault;
use micro_claims::Reason;
use micro_word::WordFault;
use nand_geometry::PageFault;
use run_file::RunFault;
use seq_core::JobFault;

/// What is wrong with a file, and where in it.
#[derive(Clone, Copy, Debug, PartialEq, Eq)]
pub enum Fault {
    /// It isn't a parameter page.
    Page { fault: PageFault },
    /// It isn't the assembly text of a microprogram, at this line, counted from 1.
    Source { fault: AsmFault, line: usize },
    /// It isn't the file of a microprogram, at this word, counted from 0.
    File { fault: WordFault, word: usize },
    /// Its microprogram isn't one that is run, for what stands at this word, counted from 0.
    Text { reason: Reason, word: usize },
    /// Its job isn't one of the channel.
    Job { fault: JobFault },
    /// It isn't the content of a die.
    Image { fault: ImageFault },
    /// It is a run file, with a line that doesn't stand.
    Statement { fault: RunFault },
}

impl Fault {
    /// The code that says what is wrong.
    pub fn code(self) -> &'static str
        ensures { result.now ≡ code_of self }
    {
        match self {
            Fault::Page { fault } => fault.code(),
            Fault::Source { fault, .. } => fault.code(),
            Fault::File { fault, .. } => fault.code(),
            Fault::Text { reason, .. } => reason.code(),
            Fault::Job { fault } => fault.code(),
            Fault::Image { fault } => fault.code(),
            Fault::Statement { fault } => fault.code(),
        }
    }

    /// The number of the line or the word in the file; 0 where there is none.
    pub fn number(self) -> usize
        ensures { result ≡ number_in self }
    {
        match self {
            Fault::Page { .. }
            | Fault::Job { .. }
            | Fault::Image { .. }
            | Fault::Statement { .. } => 0,
            Fault::Source { line, .. } => line,
            Fault::File { word, .. } | Fault::Text { word, .. } => word,
        }
    }
}
