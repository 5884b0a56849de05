//! What is known of a target while its boxes are made.

use crate::label::Label;
use nand_geometry::Geometry;
use onfi_cycle::Command;

/// The box that goes on, if there is one, and the addresses after its opener.
#[derive(Clone, Copy, Debug, PartialEq, Eq)]
pub(crate) struct Lane {
    /// The place of the box in the list of all.
    pub(crate) sequence: Option<usize>,
    opener: Command,
    addresses: [u8; 5],
    count: usize,
}

impl Lane {
    /// Nothing has happened.
    pub(crate) fn new() -> Lane {
        Lane {
            sequence: None,
            opener: Command::Unknown,
            addresses: [0; 5],
            count: 0,
        }
    }

    /// A box is begun; a sequence where it has an opener.
    pub(crate) fn begun(sequence: usize, opener: Command) -> Lane {
        Lane {
            sequence: Some(sequence),
            opener,
            addresses: [0; 5],
            count: 0,
        }
    }

    /// One address more.
    pub(crate) fn with_address(self, byte: u8) -> Lane {
        let mut addresses = self.addresses;
        if self.count < 5 {
            addresses[self.count] = byte;
        }
        Lane {
            addresses,
            count: self.count.saturating_add(1),
            ..self
        }
    }

    // The row that the last three of its addresses name, where it has so many as its opener wants.
    fn row_bytes(self) -> Option<[u8; 3]> {
        let [first, second, third, fourth, fifth] = self.addresses;
        match (self.opener, self.count) {
            (
                Command::Read
                | Command::ChangeReadColumnEnhanced
                | Command::PageProgram
                | Command::ChangeWriteColumn,
                5,
            ) => Some([third, fourth, fifth]),
            (Command::BlockErase | Command::ReadStatusEnhanced, 3) => Some([first, second, third]),
            _ => None,
        }
    }

    // The column that its addresses name, where both have come.
    fn column(self) -> Option<u16> {
        let [first, second, _, _, _] = self.addresses;
        match (self.opener, self.count) {
            (Command::ChangeReadColumn, 2) => Some(u16::from(first) | u16::from(second) << 8),
            _ => None,
        }
    }

    /// A label with what the last address has made whole: a row, or a column.
    pub(crate) fn label(self, geometry: &Geometry, label: Label) -> Label {
        match (self.row_bytes(), self.column()) {
            (Some(bytes), _) => label.with_row(geometry.parts_of(row_number(bytes))),
            (None, Some(place)) => label.with_column(place),
            (None, None) => label,
        }
    }
}

// The row of three bytes.
fn row_number(bytes: [u8; 3]) -> u32 {
    let [first, second, third] = bytes;
    u32::from(first) | u32::from(second) << 8 | u32::from(third) << 16
}
