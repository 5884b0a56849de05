//! How a trace is looked at.

use crate::targets::Targets;
use nand_geometry::Geometry;
use trace_faults::{Beginning, Readies};

/// How a trace is looked at: on a channel of so many targets of this geometry, with its readies there, and from this beginning.
#[derive(Clone, Copy, Debug, PartialEq, Eq)]
pub struct TraceView {
    pub geometry: Geometry,
    pub targets: Targets,
    pub readies: Readies,
    pub beginning: Beginning,
}
