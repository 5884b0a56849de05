//! A capture that becomes the text of a trace, piece by piece.
ghost use Rattle.std.specs.Prelude.{◌≡◌, ◌≤◌, ◌++◌, true, false, OnOk, IfOk, IfErr};
ghost use Rattle.bus_capture.specs.Inside.{AreInside};
ghost use Rattle.bus_capture.specs.declared.inferring.Stamped.{Stamped};
ghost use Rattle.bus_capture.specs.Inferring.{captured_after};
ghost use Rattle.recording.specs.Captures.{items_in, timed_in, seen_text, IsConverter};

use crate::capture_unit::unit_of;
use crate::echoed_statuses::EchoedStatuses;
use crate::latest_lines::LatestLines;
use bus_capture::{CaptureFault, CaptureForm, CaptureReader, CaptureRefusal, Setup, Stamped};
use onfi_cycle::Item;
use seq_files::Convert;
use std::alloc::{AllocError, Allocator, Global};
use trace_text::{TimedItem, print_bytes, print_recorded};

/// The items of what is seen, without their times.
pub fn items_seen(alloc: Global, stamped: &[Stamped]) -> Result<Vec<Item>, AllocError>
    ensures { IfOk result (λ items. items.items ≡ items_in stamped.now) }
{
    stamped.iter().map(|seen| seen.item).collect(alloc)
}

// The same with their times.
fn timed_of(alloc: Global, stamped: &[Stamped]) -> Result<Vec<TimedItem>, AllocError>
    ensures { IfOk result (λ items. items.items ≡ timed_in stamped.now) }
{
    stamped
        .iter()
        .map(|seen| TimedItem {
            time: seen.time,
            item: seen.item,
        })
        .collect(alloc)
}

// Adds what is seen as the text of a trace.
fn push_plain<B: Allocator>(
    alloc: Global,
    stamped: &[Stamped],
    output: &mut Vec<u8, B>,
) -> Result<(), AllocError>
    requires { AreInside stamped.now }
    ensures ok { OnOk result (output.new.items ≡ output.old.items ++ seen_text false stamped.now) }
{
    let items = items_seen(alloc, stamped)?;
    let text = print_bytes(alloc, items.as_slice())?;
    output.extend_from_slice(text.as_slice())
}

// Adds what is seen as a recorded text, with the times.
fn push_timed<B: Allocator>(
    alloc: Global,
    stamped: &[Stamped],
    output: &mut Vec<u8, B>,
) -> Result<(), AllocError>
    requires { AreInside stamped.now }
    ensures ok { OnOk result (output.new.items ≡ output.old.items ++ seen_text true stamped.now) }
{
    let items = timed_of(alloc, stamped)?;
    let text = print_recorded(alloc, items.as_slice())?;
    output.extend_from_slice(text.as_str().as_bytes())
}

/// Adds what is seen as text, with the times or without.
pub fn push_text<B: Allocator>(
    alloc: Global,
    has_times: bool,
    stamped: &[Stamped],
    output: &mut Vec<u8, B>,
) -> Result<(), AllocError>
    requires { AreInside stamped.now }
    ensures ok { OnOk result (output.new.items ≡ output.old.items ++ seen_text has_times stamped.now) }
{
    if has_times {
        push_timed(alloc, stamped, output)
    } else {
        push_plain(alloc, stamped, output)
    }
}

/// How much a capture shows.
#[derive(Clone, Copy)]
pub struct CaptureTally {
    pub items: usize,
    /// The strobes while no chip of the channel was enabled.
    pub unselected: u64,
    pub strobe_changes: u64,
    /// How often the first output after a status command was that command's own byte.
    pub echoes: u64,
    /// How many femtoseconds 1 of a written time is, where times are written and the capture says it.
    pub unit: Option<u64>,
}

/// Of a text that may go on no more bytes are kept than these: a header, a word or a row that is longer is out of memory, as an input without an end may be.
const MOST_KEPT: usize = 512 << 20;

/// A capture that becomes the text of a trace, with the times or without.
#[derive(Drop)]
pub struct CaptureConverter<'m> {
    alloc: Global,
    reader: CaptureReader<'m, Global>,
    form: CaptureForm,
    has_times: bool,
    latest: LatestLines,
    items: usize,
    unselected: u64,
    echoes: EchoedStatuses,
    // A piece was read.
    has_begun: bool,
    unit: Option<u64>,
}

impl<'m> CaptureConverter<'m> {
    /// A capture of which nothing is read yet.
    pub fn new(
        alloc: Global,
        setup: &'m Setup<'m>,
        has_times: bool,
    ) -> Result<CaptureConverter<'m>, CaptureRefusal>
        requires few { setup.now.targets ≤ 4 }
        ensures new { IfOk result (λ c. IsConverter setup.entry.now has_times c) }
        ensures err { IfErr result (λ e. e ≡ CaptureRefusal.OutOfMemory) }
    {
        let reader = CaptureReader::new(alloc, setup)?;
        let latest = LatestLines::new(alloc);
        Ok(CaptureConverter {
            alloc,
            reader,
            form: setup.form,
            has_times,
            latest,
            items: 0,
            unselected: 0,
            echoes: EchoedStatuses::default(),
            has_begun: false,
            unit: None,
        })
    }
}

impl<'m> CaptureConverter<'m> {
    // Adds what is seen to the text.
    fn push_seen<B: Allocator>(
        &mut self,
        stamped: &[Stamped],
        output: &mut Vec<u8, B>,
    ) -> Result<(), CaptureRefusal>
        requires { AreInside stamped.now }
        ensures ok { OnOk result (output.new.items ≡ output.old.items ++ seen_text self.old.has_times stamped.now) }
        ensures same { (self.new.reader ≡ self.old.reader) × (self.new.has_times ≡ self.old.has_times) }
        ensures err { IfErr result (λ e. e ≡ CaptureRefusal.OutOfMemory) }
    {
        self.items = self.items.saturating_add(stamped.len());
        self.echoes.count_in(stamped);
        match push_text(self.alloc, self.has_times, stamped, output) {
            Ok(()) => Ok(()),
            Err(_) => Err(CaptureRefusal::OutOfMemory),
        }
    }

    // Keeps the lines of a piece, and looks in the first for the unit of the times.
    fn keep_lines(&mut self, piece: &[u8]) -> Result<(), CaptureRefusal>
        ensures same { (self.new.reader ≡ self.old.reader) × (self.new.has_times ≡ self.old.has_times) }
        ensures err { IfErr result (λ e. e ≡ CaptureRefusal.OutOfMemory) }
    {
        if !self.has_begun {
            self.unit = unit_of(self.has_times, self.form, piece);
        }
        self.has_begun = true;
        match self.latest.push(piece) {
            Ok(()) => Ok(()),
            Err(_) => Err(CaptureRefusal::OutOfMemory),
        }
    }

    /// How much was shown so far.
    pub fn tally(&self) -> CaptureTally {
        CaptureTally {
            items: self.items,
            unselected: self.unselected,
            strobe_changes: self.strobe_changes(),
            echoes: self.echoes.count(),
            unit: self.unit,
        }
    }

    /// The names of the signals, where a line of the bus has none or two.
    pub(crate) fn signal_names(&self) -> Option<Vec<u8>> {
        self.reader.signal_names()
    }

    /// How often a data strobe changed.
    pub(crate) fn strobe_changes(&self) -> u64 {
        self.reader.strobe_changes()
    }

    /// The line of this number, as far as it is there: of a long header or of a long word it may be gone.
    pub(crate) fn line(&self, number: usize) -> Option<&[u8]> {
        self.latest.line(number)
    }

    /// The line of a fault, as far as it is there.
    pub(crate) fn line_of(&self, fault: CaptureFault) -> Option<&[u8]> {
        match fault {
            CaptureFault::File(at) => self.line(at.line),
            CaptureFault::Role(_) | CaptureFault::Bus { .. } => None,
        }
    }
}

impl<'m> Convert for CaptureConverter<'m> {
    ghost use Rattle.std.specs.Prelude.{[]};
    ghost use Rattle.bus_capture.specs.Capturing.{IsRefusalOf};
    ghost use Rattle.bus_capture.specs.Tracing.{comes, IsCapturing};
    ghost use Rattle.recording.specs.Captures.{Shows};

    type Refusal = CaptureRefusal;

    ghost is_ready = { λ c. IsCapturing c.reader };

    ghost makes = { λ c rest made. Shows c.has_times (comes c.reader [] rest) made };

    ghost refuses = { λ c rest why. IsRefusalOf why (comes c.reader [] rest) };

    fn take<B: Allocator>(
        &mut self,
        piece: &[u8],
        output: &mut Vec<u8, B>,
    ) -> Result<(), CaptureRefusal> {
        self.keep_lines(piece)?;
        let mut stamped = Vec::new(self.alloc);
        match self.reader.take(piece, &mut stamped) {
            Ok(()) => {}
            Err(refusal) => return Err(refusal),
        }
        if self.reader.kept() > MOST_KEPT {
            return Err(CaptureRefusal::OutOfMemory);
        }
        self.push_seen(stamped.as_slice(), output)
    }

    fn finish<B: Allocator>(&mut self, output: &mut Vec<u8, B>) -> Result<(), CaptureRefusal> {
        let mut stamped = Vec::new(self.alloc);
        match self.reader.finish(&mut stamped) {
            Ok(unselected) => {
                self.unselected = unselected;
                self.push_seen(stamped.as_slice(), output)
            }
            Err(refusal) => Err(refusal),
        }
    }
}
