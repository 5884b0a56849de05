//! The data of an operation.

use crate::listed_trace::ListedTrace;
use crate::place::Place;
use onfi_cycle::{Cycle, Item, Kind};
use std::alloc::{AllocError, Global};
use trace_ops::Operation;

// How many bytes stand in a line.
const LINE_BYTES: usize = 16;

/// Data that stand in a row: the column of the first, and how many there are.
#[derive(Drop)]
pub(crate) struct Stretch {
    pub(crate) column: u32,
    pub(crate) bytes: Vec<u8>,
}

// The column that an 85h gives, as far as its addresses came.
#[derive(Clone, Copy)]
struct GivenColumn {
    // How many are still to come.
    left: u8,
    column: u32,
}

/// The data of an operation, in stretches.
#[derive(Drop)]
pub(crate) struct Data {
    pub(crate) stretches: Vec<Stretch>,
    column: u32,
    given: GivenColumn,
    is_broken: bool,
}

impl Data {
    // Adds a byte.
    fn push_byte(&mut self, alloc: Global, byte: u8) -> Result<(), AllocError> {
        if self.is_broken || self.stretches.is_empty() {
            self.stretches.push(Stretch {
                column: self.column,
                bytes: Vec::new(alloc),
            })?;
            self.is_broken = false;
        }
        self.column = self.column.saturating_add(1);
        match self.stretches.last_mut() {
            Some(stretch) => Ok(stretch.bytes.push(byte)?),
            None => Ok(()),
        }
    }

    // Goes on by an address: the column of an 85h, the least significant byte first.
    fn take_address(&mut self, byte: u8) {
        let GivenColumn { left, column } = self.given;
        let (left, column) = match left {
            2 => (1, u32::from(byte)),
            1 => (0, column.saturating_add(256 * u32::from(byte))),
            _ => return,
        };
        self.given = GivenColumn { left, column };
        if left == 0 {
            self.column = column;
            self.is_broken = true;
        }
    }

    // Goes on by a cycle of the operation.
    fn take(&mut self, alloc: Global, cycle: Cycle) -> Result<(), AllocError> {
        match cycle.kind {
            Kind::Cmd => {
                let left = if cycle.byte == 0x85 { 2 } else { 0 };
                self.given = GivenColumn { left, column: 0 };
                Ok(())
            }
            Kind::Adr => {
                self.take_address(cycle.byte);
                Ok(())
            }
            Kind::Din | Kind::Dout => self.push_byte(alloc, cycle.byte),
        }
    }

    // Goes on by an item of the operation.
    fn take_item(&mut self, alloc: Global, item: Option<Item>) -> Result<(), AllocError> {
        match item {
            Some(Item::Cyc(cycle)) => self.take(alloc, cycle),
            Some(Item::Rdy { .. } | Item::Ard { .. }) | None => Ok(()),
        }
    }

    /// The data of the operation of this number.
    pub(crate) fn of(
        alloc: Global,
        trace: &ListedTrace,
        number: usize,
        operation: Operation,
    ) -> Result<Data, AllocError> {
        let place = Place::of(&trace.geometry, operation);
        let mut data = Data {
            stretches: Vec::new(alloc),
            column: place.column.unwrap_or(0),
            given: GivenColumn { left: 0, column: 0 },
            is_broken: false,
        };
        for item in trace.groups.items(number) {
            data.take_item(alloc, trace.item(*item))?;
        }
        Ok(data)
    }
}

// Adds a line of data, from this column on.
fn push_line(text: &mut String, column: usize, bytes: &[u8]) -> Result<(), AllocError> {
    write!(text, "{column:>28}:")?;
    for byte in bytes {
        write!(text, " {byte:02x}")?;
    }
    text.push_str("\n")
}

// Adds the lines of a stretch.
fn push_stretch(text: &mut String, stretch: &Stretch) -> Result<(), AllocError> {
    let mut column = stretch.column as usize;
    for bytes in stretch.bytes.as_slice().chunks(LINE_BYTES) {
        push_line(text, column, bytes)?;
        column = column.saturating_add(LINE_BYTES);
    }
    Ok(())
}

/// Adds the data of an operation.
pub(crate) fn push_data(text: &mut String, data: &Data) -> Result<(), AllocError> {
    for stretch in data.stretches.iter() {
        push_stretch(text, stretch)?;
    }
    Ok(())
}
