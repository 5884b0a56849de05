//! What is wrong with a capture.
ghost use Rattle.std.specs.Prelude.{◌≡◌, IfErr};
ghost use Rattle.bus_capture.specs.Codes.{bus_code, capture_code, capture_number};

use bus_signals::RoleFault;
use thiserror::Error;
use vcd_text::LineFault;

/// What is wrong with the levels of a bus at some time.
#[derive(Clone, Copy, Debug, PartialEq, Eq, Error)]
pub enum BusFault {
    /// G5: a chip enable isn't known where a cycle is sampled.
    #[error("a chip enable is x or z where a strobe rises")]
    UnknownEnable,
    /// G5: so is CLE or ALE.
    #[error("CLE or ALE is x or z where a strobe rises")]
    UnknownLatch,
    /// G5: so is a bit of DQ.
    #[error("a bit of DQ is x or z where a strobe rises")]
    UnknownData,
    /// G5: a strobe isn't known while a chip is enabled.
    #[error("a strobe is x or z while a chip is enabled")]
    UnknownStrobe,
    /// G6: CLE and ALE are high where WE# rises.
    #[error("CLE and ALE are both high where WE# rises")]
    BothLatches,
    /// G6: CLE or ALE is high where RE# rises.
    #[error("CLE or ALE is high where RE# rises")]
    LatchAtOutput,
    /// G7: two chips are enabled where a strobe rises.
    #[error("several chip enables are low where a strobe rises")]
    SeveralEnabled,
    /// G8: the other strobe is low.
    #[error("WE# and RE# are low together")]
    StrobesTogether,
    /// G10: a strobe went from low to high or back less than `--glitch` after it did so last, while a chip is enabled.
    #[error("a strobe changes sooner after its last change than --glitch allows")]
    Glitch,
}

impl BusFault {
    /// Its code, G5 to G8, or G10.
    pub fn code(self) -> &'static str
        ensures { result.now ≡ bus_code self }
    {
        match self {
            BusFault::UnknownEnable
            | BusFault::UnknownLatch
            | BusFault::UnknownData
            | BusFault::UnknownStrobe => "G5",
            BusFault::BothLatches | BusFault::LatchAtOutput => "G6",
            BusFault::SeveralEnabled => "G7",
            BusFault::StrobesTogether => "G8",
            BusFault::Glitch => "G10",
        }
    }
}

/// What is wrong with a capture: with a line of its file, with the signal of a line of the bus, or with the levels at some time.
#[derive(Clone, Copy, Debug, PartialEq, Eq, Error)]
pub enum CaptureFault {
    #[error("{0}")]
    File(LineFault),
    #[error("{0}")]
    Role(RoleFault),
    #[error("time {time}: {fault}")]
    Bus { fault: BusFault, time: u64 },
}

impl CaptureFault {
    /// Its code, G1 to G10.
    pub fn code(self) -> &'static str
        ensures { result.now ≡ capture_code self }
    {
        match self {
            CaptureFault::File(at) => at.fault.code(),
            CaptureFault::Role(_) => "G3",
            CaptureFault::Bus { fault, .. } => fault.code(),
        }
    }

    /// The number of the line in the file, or the time; 0 where a line of the bus has no signal.
    pub fn number(self) -> usize
        ensures { result ≡ capture_number self }
    {
        match self {
            CaptureFault::File(at) => at.line,
            CaptureFault::Role(_) => 0,
            CaptureFault::Bus { time, .. } => time as usize,
        }
    }
}

/// Why a capture isn't read.
#[derive(Clone, Copy, Debug, PartialEq, Eq, Error)]
pub enum CaptureRefusal {
    #[error("{0}")]
    Fault(CaptureFault),
    #[error("out of memory")]
    OutOfMemory,
}

/// One more allocator.
pub(crate) fn copy_of<A: Clone>(alloc: &A) -> Result<A, CaptureRefusal>
    ensures err { IfErr result (λ e. e ≡ CaptureRefusal.OutOfMemory) }
{
    match alloc.clone() {
        Ok(copy) => Ok(copy),
        Err(_) => Err(CaptureRefusal::OutOfMemory),
    }
}
