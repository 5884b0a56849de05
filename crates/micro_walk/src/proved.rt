//! Texts that are known to have no fault.
ghost use Rattle.std.specs.Prelude.{◌≡◌, false, None};
ghost use Rattle.micro_walk.specs.Faults.{has_loop, fault_of};

use micro_program::Verified;
use micro_word::Text;
use nand_geometry::Geometry;
use std::alloc::Allocator;

/// A text without loops that is known to have no fault, for whoever makes such texts and proves it. Walks nothing, takes no memory.
pub fn faultless<A: Allocator>(text: Text<A>, geometry: Geometry) -> Verified<A>
    requires no_loops { has_loop text.words ≡ false }
    requires faultless { fault_of geometry text ≡ None }
    ensures { (result.text ≡ text) × (result.geometry ≡ geometry) }
{
    // The calls hand out what the proof needs: that the words fit their format, and that the geometry is within its limits.
    let _ = text.words();
    let _ = geometry.parts();
    Verified::of(text, geometry, 0)
}
