//! What holds of the definitions: the contract of a function that does nothing.
ghost use Rattle.bus_capture.specs.Fronts.{KeepsFront};

use crate::reading::CaptureReader;
use std::alloc::Allocator;

/// What a capture comes to after items is what it comes to, and these items in front of that: so those that are known may be given away between two pieces.
#[tactic(auto, using(crate::proofs::Fronts::keeps_front))]
pub fn keeps_front<A: Allocator>(_reader: &CaptureReader<'_, A>)
    ensures { KeepsFront _reader.now }
{}
