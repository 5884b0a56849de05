//! Why a job isn't made.
ghost use Rattle.std.specs.Prelude.{◌≡◌};
ghost use Rattle.seq_core.specs.Codes.{job_fault_code, job_fault_number, job_fault_of};

use thiserror::Error;

/// Why a job isn't made: the first of these that stands.
#[derive(Clone, Copy, Debug, PartialEq, Eq, Error)]
pub enum JobFault {
    /// The channel has no such LUN.
    #[error("there is no such LUN")]
    NoSuchLun,
    /// A row of the job is outside the geometry.
    #[error("the rows are outside the die: the base and the rows in the header come to more than the rows of a plane")]
    RowsOutside,
    /// The buffer hasn't the length that the text names.
    #[error("the buffer isn't as long as the header says")]
    BufferLength,
    /// The text was verified for another geometry.
    #[error("the program was verified for another die")]
    OtherGeometry,
    /// The text continues a cache read, and the job doesn't begin with a block.
    #[error("the program continues a cache read, and its base isn't the first row of a block")]
    NotAtBlock,
}

impl JobFault {
    /// Its code, `S2` to `S6`.
    pub fn code(self) -> &'static str
        ensures { result.now ≡ job_fault_code self }
    {
        match self {
            JobFault::NoSuchLun => "S2",
            JobFault::RowsOutside => "S3",
            JobFault::BufferLength => "S4",
            JobFault::OtherGeometry => "S5",
            JobFault::NotAtBlock => "S6",
        }
    }

    /// The number of its code, 2 to 6.
    pub fn number(self) -> u32
        ensures { result ≡ job_fault_number self }
    {
        match self {
            JobFault::NoSuchLun => 2,
            JobFault::RowsOutside => 3,
            JobFault::BufferLength => 4,
            JobFault::OtherGeometry => 5,
            JobFault::NotAtBlock => 6,
        }
    }

    /// The fault whose code has this number, if there is one.
    #[tactic(auto, unfolding(crate::specs::Codes::job_fault_of))]
    pub fn of_number(number: u32) -> Option<JobFault>
        ensures { result ≡ job_fault_of number }
    {
        match number {
            2 => Some(JobFault::NoSuchLun),
            3 => Some(JobFault::RowsOutside),
            4 => Some(JobFault::BufferLength),
            5 => Some(JobFault::OtherGeometry),
            6 => Some(JobFault::NotAtBlock),
            _ => None,
        }
    }
}
