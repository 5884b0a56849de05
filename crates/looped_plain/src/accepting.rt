//! Verifying plain operations in a loop.
ghost use Rattle.std.specs.Prelude.{◌≡◌, None};
ghost use Rattle.micro_verify.specs.Plain.{plain_fault};
ghost use Rattle.looped_plain.specs.Looped.{IsLooped};

use micro_program::Verified;
use micro_verify::{PlainOp, verify};
use micro_walk::{Claims, certify};
use micro_word::Text;
use nand_geometry::Geometry;
use std::alloc::Allocator;

/// Verifies the text of operations in a loop of so many turns, for whoever makes such texts and proves it: it is never refused.
pub fn verify_looped<A: Allocator + Clone>(
    text: Text<A>,
    geometry: Geometry,
    turns: u16,
    ops: &[PlainOp],
) -> Verified<A>
    requires fine { plain_fault geometry ops.now ≡ None }
    requires looped { IsLooped turns ops.now text }
    ensures { (result.text ≡ text) × (result.geometry ≡ geometry) }
{
    // The calls hand out what the proof needs: that the words fit their format, and that the geometry is within its limits.
    let _ = text.words();
    let _ = geometry.parts();
    match verify(text, geometry) {
        Ok(verified) => verified,
        Err(_) => unreachable!(),
    }
}

/// The same by claims for the places of the text, which are searched for here.
pub fn certify_looped<A: Allocator>(
    text: Text<A>,
    geometry: Geometry,
    turns: u16,
    ops: &[PlainOp],
) -> Verified<A>
    requires fine { plain_fault geometry ops.now ≡ None }
    requires looped { IsLooped turns ops.now text }
    ensures { (result.text ≡ text) × (result.geometry ≡ geometry) }
{
    // The calls hand out what the proof needs: that the words fit their format, and that the geometry is within its limits.
    let _ = text.words();
    let _ = geometry.parts();
    let claims = Claims::find(&text, &geometry);
    match certify(text, geometry, &claims) {
        Ok(verified) => verified,
        Err(_) => unreachable!(),
    }
}
