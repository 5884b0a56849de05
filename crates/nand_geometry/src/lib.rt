//! The geometry of a NAND channel: how many LUNs, blocks, pages and bytes a target has, the parameter page that declares
//! them, and the rows that address them.
//!
//! [`Parts`] are the numbers, [`Geometry`] numbers inside the limits. [`Geometry::read`] takes them from a parameter page, and
//! [`Geometry::page`] writes one; a [`PageFault`] says why a page or its numbers are refused. [`RowParts`] is what the three
//! bytes of a row name. [`SMALL_CHIP`] is the chip of the examples. The definitions stand in `specs/`: `Limits`, `Row`, `Reading` and `Page`.
#![tactic(auto)]

pub mod checksum;
mod field;
mod geometry;
pub mod laws;
mod optional;
mod page_fault;
mod parts;
mod reading;
mod row_parts;
mod writing;

pub use geometry::Geometry;
pub use optional::{Optional, Profile};
pub use page_fault::PageFault;
pub use parts::{MAX_LUNS, Parts, SMALL_CHIP};
pub use row_parts::RowParts;
