//! What is wrong with a capture, with what the whole of it tells.

use crate::capture_converter::CaptureConverter;
use crate::explaining::words_of_capture;
use bus_capture::{BusFault, CaptureFault};
use seq_inputs::Words;
use shown_text::Shown;
use std::alloc::Global;

// What is wrong with the signal of a line, and which signals there are.
fn words_with_names<'p>(
    alloc: Global,
    path: &'p str,
    names: &str,
    fault: CaptureFault,
) -> Option<Words<'p>> {
    let shown = Shown::path(names);
    let code = fault.code();
    let text = format!(in alloc; "{fault}; the signals are `{shown}` ({code})");
    Words::at(path, None, text)
}

// What is wrong with the signal of a line; beside it, which signals there are, as far as that is known.
fn words_of_role<'p>(
    alloc: Global,
    path: &'p str,
    names: Option<Vec<u8>>,
    fault: CaptureFault,
) -> Option<Words<'p>> {
    let Some(names) = names else {
        return words_of_capture(alloc, path, None, fault);
    };
    match str::from_utf8(names.as_slice()) {
        Ok(names) => words_with_names(alloc, path, names, fault),
        Err(_) => words_of_capture(alloc, path, None, fault),
    }
}

// The strobes look swapped: where RE# rises first, CLE or ALE is high.
fn look_swapped(converter: &CaptureConverter<'_>, fault: CaptureFault) -> bool {
    match fault {
        CaptureFault::Bus { fault, .. } => {
            fault == BusFault::LatchAtOutput && converter.tally().items == 0
        }
        CaptureFault::File(_) | CaptureFault::Role(_) => false,
    }
}

fn words_of_swapped<'p>(alloc: Global, path: &'p str, fault: CaptureFault) -> Option<Words<'p>> {
    let code = fault.code();
    let text = format!(in alloc;
        "{fault}: WE and RE look swapped, say which one is which by --map WE=NAME,RE=NAME ({code})"
    );
    Words::at(path, None, text)
}

// The capture begins as gzip begins its files.
fn is_compressed(converter: &CaptureConverter<'_>) -> bool {
    matches!(converter.line(1), Some([0x1f, 0x8b, ..]))
}

fn words_of_compressed<'p>(alloc: Global, path: &'p str, fault: CaptureFault) -> Option<Words<'p>> {
    let line = match fault {
        CaptureFault::File(at) => Some(at.line),
        CaptureFault::Role(_) | CaptureFault::Bus { .. } => None,
    };
    let code = fault.code();
    let text = format!(in alloc; "the capture is compressed by gzip: unpack it first ({code})");
    Words::at(path, line, text)
}

/// What is wrong with a capture of which this much is read.
pub fn words_of_fault<'p>(
    alloc: Global,
    path: &'p str,
    converter: &CaptureConverter<'_>,
    fault: CaptureFault,
) -> Option<Words<'p>> {
    if is_compressed(converter) {
        return words_of_compressed(alloc, path, fault);
    }
    if matches!(fault, CaptureFault::Role(_)) {
        return words_of_role(alloc, path, converter.signal_names(), fault);
    }
    if look_swapped(converter, fault) {
        return words_of_swapped(alloc, path, fault);
    }
    words_of_capture(alloc, path, converter.line_of(fault), fault)
}
