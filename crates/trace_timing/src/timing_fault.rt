//! What may be wrong with the times of a trace.
ghost use Rattle.std.specs.Prelude.{◌≡◌};
ghost use Rattle.trace_timing.specs.Codes.{timing_fault_code};

use crate::busy_time::BusyTime;
use thiserror::Error;

/// What is wrong with the times of a trace. Each distance is from the rise of one strobe to the rise of the next; where a datasheet counts up to the fall of
/// the second, the least pulse is added, so that what is told is too soon whatever the falls were. The time of work is from the rise of the strobe that begins it.
#[derive(Clone, Copy, Debug, PartialEq, Eq, Error)]
pub enum TimingFault {
    #[error("no two times of the trace can be compared")]
    NoTimes,
    #[error("a cycle that is written comes too soon after the one before (tWC)")]
    WriteCycle,
    #[error("a cycle that is read comes too soon after the one before (tRC)")]
    ReadCycle,
    #[error("a data input comes too soon after the last address (tADL)")]
    AddressToInput,
    #[error("an output comes too soon after a command, an address or an input (tWHR)")]
    ToOutput,
    #[error("data come too soon after a change of the column (tCCS)")]
    ColumnChange,
    #[error("a cycle that is written comes too soon after an output (tRHW)")]
    OutputToCommand,
    #[error("a data output comes too soon after the ready (tRR)")]
    ReadyToOutput,
    #[error("a command or an output comes too soon after the cycle that begins work (tWB)")]
    ToBusy,
    #[error("a LUN is busy for longer than the parameter page or the mode allows")]
    TooLong(BusyTime),
    #[error("a time is before that of the item before it")]
    Backwards,
}

impl TimingFault {
    /// Its code, `T0` to `T10`.
    pub fn code(self) -> &'static str
        ensures { result.now ≡ timing_fault_code self }
    {
        match self {
            TimingFault::NoTimes => "T0",
            TimingFault::WriteCycle => "T1",
            TimingFault::ReadCycle => "T2",
            TimingFault::AddressToInput => "T3",
            TimingFault::ToOutput => "T4",
            TimingFault::ColumnChange => "T5",
            TimingFault::OutputToCommand => "T6",
            TimingFault::ReadyToOutput => "T7",
            TimingFault::ToBusy => "T8",
            TimingFault::TooLong(_) => "T9",
            TimingFault::Backwards => "T10",
        }
    }

    /// The time of the datasheet that isn't kept; none of what is no distance.
    pub fn timing(self) -> Option<&'static str> {
        match self {
            TimingFault::WriteCycle => Some("tWC"),
            TimingFault::ReadCycle => Some("tRC"),
            TimingFault::AddressToInput => Some("tADL"),
            TimingFault::ToOutput => Some("tWHR"),
            TimingFault::ColumnChange => Some("tCCS"),
            TimingFault::OutputToCommand => Some("tRHW"),
            TimingFault::ReadyToOutput => Some("tRR"),
            TimingFault::ToBusy => Some("tWB"),
            TimingFault::TooLong(work) => Some(work.timing()),
            TimingFault::NoTimes | TimingFault::Backwards => None,
        }
    }
}
