//! Reading a capture.
ghost use Rattle.std.specs.Prelude.{◌≡◌, ◌≤◌, ◌++◌, List, ℕ, [], None, Ok, IfOk, IfErr, OnOk};
ghost use Rattle.bus_capture.specs.Capturing.{IsRefusalOf};
ghost use Rattle.bus_capture.specs.Inferring.{captured_by, captured_after, captured};
ghost use Rattle.bus_capture.specs.Inside.{AreInside};
ghost use Rattle.bus_capture.specs.Tracing.{comes, comes_dump, comes_table, kept_of, dump_after, table_after, IsReading, IsCapturing, IsTabling, IsTablingIf, IsTracing, OpensAs, OpensTable};

use crate::dump_reader::DumpReader;
use crate::fault::{CaptureFault, CaptureRefusal, copy_of};
use crate::inferring::Stamped;
use crate::table_reader::TableReader;
use bus_signals::Mapping;
use csv_text::{open_table, whole_lines_len};
use nand_geometry::Geometry;
use std::alloc::Allocator;
use vcd_text::{DumpFault, HeaderRefusal, LineFault, Variable, read_header, whole_len};

/// As what a capture is read.
#[derive(Clone, Copy, Debug, PartialEq, Eq)]
pub enum CaptureForm {
    /// A value change dump.
    Dump,
    /// A CSV: the export of Saleae Logic 2 or of DSView, which has a row at each change, or of sigrok-cli and PulseView, which has one at each sample. Its first
    /// row that is no comment has to name the columns. A time in seconds is told in picoseconds. Without a column of times it is the picoseconds before the
    /// sample, where a comment tells the sample rate, or else the number of the sample, from 0.
    Table,
}

/// What a capture is read by.
#[derive(Clone, Copy, Debug, PartialEq, Eq)]
pub struct Setup<'m> {
    pub form: CaptureForm,
    /// That of each die.
    pub geometry: Geometry,
    /// How many chip enables the channel has.
    pub targets: u8,
    /// What a caller says that signals are.
    pub mappings: &'m [Mapping<'m>],
    /// A strobe that changes again before so much time, in the capture's unit, is a fault; 0 where none is.
    pub glitch: u64,
    /// An output is taken so long behind the rise of RE#, in the capture's unit, or before a line changes that is none of DQ; None where it is taken as RE# rises.
    pub late: Option<u64>,
}

// What a header comes to: the body after it, or it isn't whole yet.
#[derive(Drop)]
pub(crate) enum Opened<A: Allocator> {
    Whole(DumpReader<A>),
    Unended(LineFault),
}

// How many names are listed.
const MOST_NAMES: usize = 40;

// Adds the name of a signal to others.
fn push_name<A: Allocator>(names: &mut Vec<u8, A>, variable: &Variable<'_>) -> bool {
    let parted = names.is_empty() || names.extend_from_slice(b", ").is_ok();
    parted
        && names.extend_from_slice(variable.name).is_ok()
        && names.extend_from_slice(variable.range).is_ok()
}

// The names of signals, with commas between them.
fn list_names<A: Allocator>(
    mut names: Vec<u8, A>,
    variables: &[Variable<'_>],
) -> Option<Vec<u8, A>> {
    for variable in variables.iter().take(MOST_NAMES) {
        if !push_name(&mut names, variable) {
            return None;
        }
    }
    if variables.len() > MOST_NAMES && names.extend_from_slice(b", ..").is_err() {
        return None;
    }
    Some(names)
}

/// A capture that is read piece by piece: its pieces are given one after the other to [`CaptureReader::take`], which adds the items that are known then,
/// and at its end [`CaptureReader::finish`] adds the others.
///
/// A cycle is sampled where a strobe rises and a chip is enabled, by the levels before that time; an output may be taken later ([`Setup::late`]). Where lines of a model are there (`busy0_1`), they tell the
/// readies; else a ready stands before the status output that shows it, and on a target of one LUN where R/B# rises, as long as all items are permitted.
///
/// The faults of a dump, in this order: of the header (G1, G2), of the lines' signals (G3), and then of the changes (G4) and of the levels (G5 to G8, G10) in
/// the order of the file. Those of a CSV: of the row of names (G9), of the lines' signals (G3), and then of the rows (G9) and of the levels. `OutOfMemory` is
/// answered only where memory was refused, or where a text has 2^64 lines. The items are on one of four targets, and of one of four LUNs.
///
/// A dump takes memory for its header and for its longest word, a CSV for what stands above its rows and for its longest row, and both for what is seen after
/// a rise of R/B# before it is known how the work ended (at most 65,536 items).
#[derive(Drop)]
pub struct CaptureReader<'m, A: Allocator> {
    alloc: A,
    setup: &'m Setup<'m>,
    // The text whose header or row of names isn't whole yet, and how long it was when that was last tried.
    head: Vec<u8, A>,
    tried: usize,
    dump: Option<DumpReader<A>>,
    table: Option<TableReader<A>>,
    // How often a data strobe changed in a text that is read to its end.
    strobe_changes: u64,
}

impl<'m, A: Allocator + Clone> CaptureReader<'m, A> {
    /// A capture of which nothing is read yet.
    pub fn new(alloc: A, setup: &'m Setup<'m>) -> Result<CaptureReader<'m, A>, CaptureRefusal>
        requires few { setup.now.targets ≤ 4 }
        ensures comes { IfOk result (λ r. (stamped : List Stamped) (text : List ℕ) → comes r stamped text ≡ captured_after setup.entry.now stamped text) }
        ensures capturing { IfOk result (λ r. IsCapturing r) }
        ensures err { IfErr result (λ e. e ≡ CaptureRefusal.OutOfMemory) }
    {
        let Ok(copy) = alloc.clone() else {
            return Err(CaptureRefusal::OutOfMemory);
        };
        Ok(CaptureReader {
            alloc,
            setup,
            head: Vec::new(copy),
            tried: 0,
            dump: None,
            table: None,
            strobe_changes: 0,
        })
    }

    // Reads the header of a text, with this text after it.
    fn open(&self, whole: &[u8], tail: &[u8]) -> Result<Opened<A>, CaptureRefusal>
        requires few { self.now.setup.now.targets ≤ 4 }
        ensures { OpensAs self.now.setup.now whole.now tail.now result }
    {
        let Ok(copy) = self.alloc.clone() else {
            return Err(CaptureRefusal::OutOfMemory);
        };
        match read_header(copy_of(&self.alloc)?, whole) {
            Ok(dump) => match DumpReader::begun(copy, self.setup, dump, tail) {
                Ok(reader) => Ok(Opened::Whole(reader)),
                Err(refusal) => Err(refusal),
            },
            Err(HeaderRefusal::Fault(fault)) => {
                if fault.fault.is_unended() {
                    Ok(Opened::Unended(fault))
                } else {
                    Err(CaptureRefusal::Fault(CaptureFault::File(fault)))
                }
            }
            Err(HeaderRefusal::OutOfMemory) => Err(CaptureRefusal::OutOfMemory),
        }
    }

    // Reads the row of names of a CSV, with this text after it, if it is there.
    fn open_table(
        &self,
        whole: &[u8],
        tail: &[u8],
    ) -> Result<Option<TableReader<A>>, CaptureRefusal>
        requires few { self.now.setup.now.targets ≤ 4 }
        ensures { OpensTable self.now.setup.now whole.now tail.now result }
    {
        let copy = copy_of(&self.alloc)?;
        let other = copy_of(&self.alloc)?;
        match open_table(copy, whole) {
            Ok(None) => Ok(None),
            Ok(Some(table)) => match TableReader::begun(other, self.setup, table, tail) {
                Ok(reader) => Ok(Some(reader)),
                Err(refusal) => Err(refusal),
            },
            Err(HeaderRefusal::Fault(fault)) => {
                Err(CaptureRefusal::Fault(CaptureFault::File(fault)))
            }
            Err(HeaderRefusal::OutOfMemory) => Err(CaptureRefusal::OutOfMemory),
        }
    }

    // Takes a piece of a text whose header or row of names isn't whole.
    fn push_head(&mut self, piece: &[u8]) -> Result<(), CaptureRefusal>
        ensures head { OnOk result (self.new.head.items ≡ self.old.head.items ++ piece.now) }
        ensures same { (self.new.setup ≡ self.old.setup) × (self.new.dump ≡ self.old.dump) × (self.new.table ≡ self.old.table) }
        ensures err { IfErr result (λ e. e ≡ CaptureRefusal.OutOfMemory) }
    {
        match self.head.extend_from_slice(piece) {
            Ok(()) => Ok(()),
            Err(_) => Err(CaptureRefusal::OutOfMemory),
        }
    }

    // Goes on to the body if the header is whole.
    fn open_head(&mut self) -> Result<(), CaptureRefusal>
        requires few { self.old.setup.now.targets ≤ 4 }
        requires none { self.old.dump ≡ None }
        ensures ok { OnOk result ((stamped : List Stamped) (rest : List ℕ) → captured_by CaptureForm.Dump self.old.setup.now stamped (self.old.head.items ++ rest)
            ≡ comes_dump self.new.dump self.new.setup.now self.new.head.items stamped rest) }
        ensures err { IfErr result (λ e. (stamped : List Stamped) (rest : List ℕ) → IsRefusalOf e (captured_by CaptureForm.Dump self.old.setup.now stamped (self.old.head.items ++ rest))) }
        ensures reading { OnOk result (IsReading self.new.dump) }
        ensures same { (self.new.setup ≡ self.old.setup) × (self.new.table ≡ self.old.table) }
    {
        let count = whole_len(self.head.as_slice());
        let (whole, tail) = self.head.as_slice().split_at(count);
        match self.open(whole, tail)? {
            Opened::Whole(dump) => {
                self.dump = Some(dump);
                self.head.clear();
            }
            Opened::Unended(_) => self.tried = self.head.len(),
        }
        Ok(())
    }

    // Goes on to the rows of a CSV if its row of names is there.
    fn open_table_head(&mut self) -> Result<(), CaptureRefusal>
        requires few { self.old.setup.now.targets ≤ 4 }
        requires none { self.old.table ≡ None }
        ensures ok { OnOk result ((stamped : List Stamped) (rest : List ℕ) → captured_by CaptureForm.Table self.old.setup.now stamped (self.old.head.items ++ rest)
            ≡ comes_table self.new.table self.new.setup.now self.new.head.items stamped rest) }
        ensures err { IfErr result (λ e. (stamped : List Stamped) (rest : List ℕ) → IsRefusalOf e (captured_by CaptureForm.Table self.old.setup.now stamped (self.old.head.items ++ rest))) }
        ensures tabling { OnOk result (IsTablingIf self.new.table) }
        ensures same { (self.new.setup ≡ self.old.setup) × (self.new.dump ≡ self.old.dump) }
    {
        let count = whole_lines_len(self.head.as_slice());
        let (whole, tail) = self.head.as_slice().split_at(count);
        match self.open_table(whole, tail)? {
            Some(table) => {
                self.table = Some(table);
                self.head.clear();
            }
            None => self.tried = self.head.len(),
        }
        Ok(())
    }

    // Takes a piece of a dump.
    fn take_dump<B: Allocator>(
        &mut self,
        piece: &[u8],
        stamped: &mut Vec<Stamped, B>,
    ) -> Result<(), CaptureRefusal>
        requires capturing { IsCapturing self.old }
        requires inside { AreInside stamped.old.items }
        ensures ok { OnOk result ((rest : List ℕ) → comes_dump self.old.dump self.old.setup.now self.old.head.items stamped.old.items (piece.now ++ rest)
            ≡ comes_dump self.new.dump self.new.setup.now self.new.head.items stamped.new.items rest) }
        ensures capturing { OnOk result (IsCapturing self.new) }
        ensures inside { OnOk result (AreInside stamped.new.items) }
        ensures same { self.new.setup ≡ self.old.setup }
        ensures err { IfErr result (λ e. (rest : List ℕ) → IsRefusalOf e (comes_dump self.old.dump self.old.setup.now self.old.head.items stamped.old.items (piece.now ++ rest))) }
    {
        if let Some(dump) = &mut self.dump {
            return dump.take(piece, stamped);
        }
        self.push_head(piece)?;
        if self.tried <= self.head.len() / 2 {
            return self.open_head();
        }
        Ok(())
    }

    // Takes a piece of a CSV.
    fn take_table<B: Allocator>(
        &mut self,
        piece: &[u8],
        stamped: &mut Vec<Stamped, B>,
    ) -> Result<(), CaptureRefusal>
        requires capturing { IsCapturing self.old }
        requires inside { AreInside stamped.old.items }
        ensures ok { OnOk result ((rest : List ℕ) → comes_table self.old.table self.old.setup.now self.old.head.items stamped.old.items (piece.now ++ rest)
            ≡ comes_table self.new.table self.new.setup.now self.new.head.items stamped.new.items rest) }
        ensures capturing { OnOk result (IsCapturing self.new) }
        ensures inside { OnOk result (AreInside stamped.new.items) }
        ensures same { self.new.setup ≡ self.old.setup }
        ensures err { IfErr result (λ e. (rest : List ℕ) → IsRefusalOf e (comes_table self.old.table self.old.setup.now self.old.head.items stamped.old.items (piece.now ++ rest))) }
    {
        if let Some(table) = &mut self.table {
            return table.take(piece, stamped);
        }
        self.push_head(piece)?;
        if self.tried <= self.head.len() / 2 {
            return match self.open_table_head() {
                Ok(()) => Ok(()),
                Err(refusal) => Err(refusal),
            };
        }
        Ok(())
    }

    /// Goes on by a piece of the text, of any length, and adds the items that are known then. After a refusal nothing more is to be asked for.
    pub fn take<B: Allocator>(
        &mut self,
        piece: &[u8],
        stamped: &mut Vec<Stamped, B>,
    ) -> Result<(), CaptureRefusal>
        requires capturing { IsCapturing self.old }
        requires inside { AreInside stamped.old.items }
        ensures ok { OnOk result ((rest : List ℕ) → comes self.old stamped.old.items (piece.now ++ rest) ≡ comes self.new stamped.new.items rest) }
        ensures capturing { OnOk result (IsCapturing self.new) }
        ensures inside { OnOk result (AreInside stamped.new.items) }
        ensures err { IfErr result (λ e. (rest : List ℕ) → IsRefusalOf e (comes self.old stamped.old.items (piece.now ++ rest))) }
    {
        match self.setup.form {
            CaptureForm::Dump => self.take_dump(piece, stamped),
            CaptureForm::Table => self.take_table(piece, stamped),
        }
    }

    // The dump at its end: its header has to be whole.
    fn open_last(&mut self) -> Result<DumpReader<A>, CaptureRefusal>
        requires capturing { IsCapturing self.old }
        ensures ok { IfOk result (λ d. (stamped : List Stamped) → comes_dump self.old.dump self.old.setup.now self.old.head.items stamped [] ≡ dump_after d stamped []) }
        ensures tracing { IfOk result (λ d. IsTracing d.tracer) }
        ensures err { IfErr result (λ e. (stamped : List Stamped) → IsRefusalOf e (comes_dump self.old.dump self.old.setup.now self.old.head.items stamped [])) }
    {
        if let Some(dump) = self.dump.take() {
            return Ok(dump);
        }
        match self.open(self.head.as_slice(), &[])? {
            Opened::Whole(dump) => Ok(dump),
            Opened::Unended(fault) => Err(CaptureRefusal::Fault(CaptureFault::File(fault))),
        }
    }

    // Adds the items that are left of a dump: how many strobes rose with no chip enabled.
    fn finish_dump<B: Allocator>(
        &mut self,
        stamped: &mut Vec<Stamped, B>,
    ) -> Result<u64, CaptureRefusal>
        requires capturing { IsCapturing self.old }
        requires inside { AreInside stamped.old.items }
        ensures ok { OnOk result (comes_dump self.old.dump self.old.setup.now self.old.head.items stamped.old.items [] ≡ Ok stamped.new.items) }
        ensures inside { OnOk result (AreInside stamped.new.items) }
        ensures err { IfErr result (λ e. IsRefusalOf e (comes_dump self.old.dump self.old.setup.now self.old.head.items stamped.old.items [])) }
    {
        let mut dump = self.open_last()?;
        dump.finish(stamped)?;
        self.strobe_changes = dump.tracer.strobe_changes;
        Ok(dump.tracer.unselected)
    }

    // The CSV at its end: its row of names has to be there.
    fn open_last_table(&mut self) -> Result<TableReader<A>, CaptureRefusal>
        requires capturing { IsCapturing self.old }
        ensures ok { IfOk result (λ t. (stamped : List Stamped) → comes_table self.old.table self.old.setup.now self.old.head.items stamped [] ≡ table_after t stamped []) }
        ensures tabling { IfOk result (λ t. IsTabling t) }
        ensures err { IfErr result (λ e. (stamped : List Stamped) → IsRefusalOf e (comes_table self.old.table self.old.setup.now self.old.head.items stamped [])) }
    {
        if let Some(table) = self.table.take() {
            return Ok(table);
        }
        match self.open_table(self.head.as_slice(), &[])? {
            Some(table) => Ok(table),
            None => Err(CaptureRefusal::Fault(CaptureFault::File(LineFault {
                fault: DumpFault::NoColumnNames,
                line: 1,
            }))),
        }
    }

    // Adds the items that are left of a CSV: how many strobes rose with no chip enabled.
    fn finish_table<B: Allocator>(
        &mut self,
        stamped: &mut Vec<Stamped, B>,
    ) -> Result<u64, CaptureRefusal>
        requires capturing { IsCapturing self.old }
        requires inside { AreInside stamped.old.items }
        ensures ok { OnOk result (comes_table self.old.table self.old.setup.now self.old.head.items stamped.old.items [] ≡ Ok stamped.new.items) }
        ensures inside { OnOk result (AreInside stamped.new.items) }
        ensures err { IfErr result (λ e. IsRefusalOf e (comes_table self.old.table self.old.setup.now self.old.head.items stamped.old.items [])) }
    {
        let mut table = self.open_last_table()?;
        table.finish(stamped)?;
        self.strobe_changes = table.tracer.strobe_changes;
        Ok(table.tracer.unselected)
    }

    /// The names of the signals of a capture in which a line of the bus has none or two, with commas between them, and at most forty of them; None where
    /// signals aren't what is wrong.
    pub fn signal_names(&self) -> Option<Vec<u8, A>> {
        let copy = self.alloc.clone().ok()?;
        let names = Vec::new(self.alloc.clone().ok()?);
        match self.setup.form {
            CaptureForm::Dump => {
                let dump = read_header(copy, self.head.as_slice()).ok()?;
                list_names(names, dump.header.variables.as_slice())
            }
            CaptureForm::Table => {
                let table = open_table(copy, self.head.as_slice()).ok()??;
                list_names(names, table.variables.as_slice())
            }
        }
    }

    /// How often a data strobe changed in a capture that is read to its end, if it has one.
    pub fn strobe_changes(&self) -> u64 {
        self.strobe_changes
    }

    /// How many bytes of the text are kept, as they may go on: of a header, of a word, or of a row.
    pub fn kept(&self) -> usize
        ensures { result ≡ kept_of self.now }
    {
        let left = match (&self.dump, &self.table) {
            (Some(dump), _) => dump.kept(),
            (None, Some(table)) => table.kept(),
            (None, None) => 0,
        };
        self.head.len().saturating_add(left)
    }

    /// Adds the items that are left where the text ends: how many strobes rose with no chip enabled. Nothing more is to be asked for then.
    pub fn finish<B: Allocator>(
        &mut self,
        stamped: &mut Vec<Stamped, B>,
    ) -> Result<u64, CaptureRefusal>
        requires capturing { IsCapturing self.old }
        requires inside { AreInside stamped.old.items }
        ensures ok { OnOk result (comes self.old stamped.old.items [] ≡ Ok stamped.new.items) }
        ensures inside { OnOk result (AreInside stamped.new.items) }
        ensures err { IfErr result (λ e. IsRefusalOf e (comes self.old stamped.old.items [])) }
    {
        match self.setup.form {
            CaptureForm::Dump => self.finish_dump(stamped),
            CaptureForm::Table => self.finish_table(stamped),
        }
    }
}

/// A capture, read.
#[derive(Debug, Drop)]
pub struct Capture<A: Allocator> {
    /// The items, in the order of time.
    pub stamped: Vec<Stamped, A>,
    /// How many strobes rose with no chip enabled.
    pub unselected: u64,
}

/// Reads a whole capture, as [`CaptureReader`] does.
pub fn read_capture<A: Allocator + Clone>(
    alloc: A,
    setup: &Setup<'_>,
    text: &[u8],
) -> Result<Capture<A>, CaptureRefusal>
    requires few { setup.now.targets ≤ 4 }
    ensures ok { IfOk result (λ c. captured setup.now text.now ≡ Ok c.stamped.items) }
    ensures inside { IfOk result (λ c. AreInside c.stamped.items) }
    ensures err { IfErr result (λ e. IsRefusalOf e (captured setup.now text.now)) }
{
    let Ok(copy) = alloc.clone() else {
        return Err(CaptureRefusal::OutOfMemory);
    };
    let mut reader = CaptureReader::new(alloc, setup)?;
    let mut stamped = Vec::new(copy);
    match reader.take(text, &mut stamped) {
        Ok(()) => match reader.finish(&mut stamped) {
            Ok(unselected) => Ok(Capture {
                stamped,
                unselected,
            }),
            Err(refusal) => Err(refusal),
        },
        Err(refusal) => Err(refusal),
    }
}
