//! What the library says of its own layout, so that a test can compare a header with it.
ghost use Rattle.std.specs.Prelude.{◌≡◌};

use crate::finish::OnfiseqStep;
use crate::job::OnfiseqJob;
use crate::live::{OnfiseqLive, VERSION};
use crate::loops::{OnfiseqLoop, OnfiseqLoops};
use crate::next::{OnfiseqBurst, OnfiseqTurn};
use std::mem::size_of;

/// The version of these calls and records, and the size of each record in bytes.
#[repr(C)]
#[derive(Clone, Copy)]
pub struct OnfiseqLiveAbi {
    pub version: u32,
    pub loops: usize,
    pub job: usize,
    pub live: usize,
    pub burst: usize,
    pub turn: usize,
    pub step: usize,
    pub sample: usize,
}

/// One of each record, with a number of its own in each field.
#[repr(C)]
#[derive(Clone, Copy)]
pub struct OnfiseqLiveSample {
    pub job: OnfiseqJob,
    pub turn: OnfiseqTurn,
    pub step: OnfiseqStep,
}

/// The version of these calls and records, which counts up where one changes, and their sizes.
#[unsafe(no_mangle)]
pub extern "C" fn onfiseq_live_sizes() -> OnfiseqLiveAbi
    ensures { result.version ≡ 3 }
{
    OnfiseqLiveAbi {
        version: VERSION,
        loops: size_of::<OnfiseqLoops>(),
        job: size_of::<OnfiseqJob>(),
        live: size_of::<OnfiseqLive>(),
        burst: size_of::<OnfiseqBurst>(),
        turn: size_of::<OnfiseqTurn>(),
        step: size_of::<OnfiseqStep>(),
        sample: size_of::<OnfiseqLiveSample>(),
    }
}

fn sample_loop(number: u16) -> OnfiseqLoop {
    OnfiseqLoop {
        start: number,
        left: number ^ 0x100,
    }
}

fn sample_job() -> OnfiseqJob {
    OnfiseqJob {
        magic: 1,
        ce: 2,
        lun: 3,
        has_ended: 4,
        code: 5,
        base: 6,
        buffer: 7,
        index: 8,
        place: 9,
        column: 10,
        at: 11,
        plane: 12,
        status: 13,
        loops: OnfiseqLoops {
            depth: 14,
            around: [
                sample_loop(15),
                sample_loop(16),
                sample_loop(17),
                sample_loop(18),
            ],
        },
    }
}

fn sample_burst(number: u8) -> OnfiseqBurst {
    OnfiseqBurst {
        kind: number,
        ce: number ^ 0x40,
        bytes: [number, 19, 20, 21, 22],
        place: usize::from(number) ^ 0x80,
        len: usize::from(number) ^ 0x100,
    }
}

/// One of each record with a number of its own in each field, in the order of the records and their fields. It is no state of a channel and no job: it is for
/// tests of a header.
#[unsafe(no_mangle)]
pub extern "C" fn onfiseq_live_make_sample() -> OnfiseqLiveSample
    ensures { result.step.number ≡ 31 }
{
    OnfiseqLiveSample {
        job: sample_job(),
        turn: OnfiseqTurn {
            letter: 23,
            number: 24,
            count: 25,
            taken: 26,
            bursts: [sample_burst(27), sample_burst(28), sample_burst(29)],
        },
        step: OnfiseqStep {
            letter: 30,
            number: 31,
        },
    }
}
