//! A capture that is read whole.
ghost use Rattle.std.specs.Prelude.{◌≡◌, ◌≤◌, Ok, IfOk, IfErr};
ghost use Rattle.bus_capture.specs.Inferring.{captured};
ghost use Rattle.bus_capture.specs.Inside.{AreInside};
ghost use Rattle.recording.specs.Captures.{RefusesCapture};
ghost use Rattle.recording.specs.Endings.{SaysOf};

use crate::capture_converter::CaptureConverter;
use crate::capture_words::words_of_fault;
use crate::recording_fault::RecordingFault;
use crate::recording_stop::RecordingStop;
use bus_capture::{Capture, CaptureFault, CaptureRefusal, Setup, read_capture};
use seq_files::Convert;
use seq_inputs::{Stop, Words};
use std::alloc::Global;

// What is wrong with a capture, with what the whole of it tells.
fn words_of<'p>(
    alloc: Global,
    path: &'p str,
    setup: &Setup<'_>,
    capture: &[u8],
    fault: CaptureFault,
) -> Option<Words<'p>>
    requires few { setup.now.targets ≤ 4 }
{
    let mut converter = CaptureConverter::new(alloc, setup, false).ok()?;
    let mut text = Vec::new(alloc);
    let _ = converter.take(capture, &mut text);
    words_of_fault(alloc, path, &converter, fault)
}

/// What the capture of these bytes shows, which stand at this path.
pub fn see_capture<'p>(
    alloc: Global,
    path: &'p str,
    setup: &Setup<'_>,
    bytes: &[u8],
) -> Result<Capture<Global>, RecordingStop<'p>>
    requires few { setup.now.targets ≤ 4 }
    ensures ok { IfOk result (λ seen. captured setup.now bytes.now ≡ Ok seen.stamped.items) }
    ensures inside { IfOk result (λ seen. AreInside seen.stamped.items) }
    ensures err { IfErr result (SaysOf (λ _. ⊥) (RefusesCapture setup.now bytes.now)) }
{
    match read_capture(alloc, setup, bytes) {
        Ok(seen) => Ok(seen),
        Err(CaptureRefusal::Fault(fault)) => {
            let words = words_of(alloc, path, setup, bytes, fault);
            let fault = RecordingFault::Capture { fault };
            Err(RecordingStop::Faulty { fault, words })
        }
        Err(CaptureRefusal::OutOfMemory) => Err(RecordingStop::Stop(Stop::OutOfMemory)),
    }
}
