//! A trace as a picture.
ghost use Rattle.std.specs.Prelude.{◌≡◌, None, IfOk, IfErr};
ghost use Rattle.target_record.specs.Geometry.{parts_of};
ghost use Rattle.onfiseq_show_c.specs.Shown.{Comes, trace_fault, Fails};

use crate::failure::Failure;
use crate::trace::items_of;
use bus_record::{OnfiseqGeometry, OnfiseqItem};
use nand_geometry::Geometry;
use placed_bytes::{OnfiseqPlaced, place};
use std::alloc::Global;
use trace_picture::draw;

// The picture of a trace, as SVG.
fn picture_of(
    alloc: Global,
    geometry: &OnfiseqGeometry,
    targets: u8,
    numbers: &[OnfiseqItem],
) -> Result<String, Failure>
    ensures ok { IfOk result (λ v. trace_fault (parts_of geometry.now) targets numbers.now ≡ None) }
    ensures err { IfErr result (Fails (trace_fault (parts_of geometry.now) targets numbers.now)) }
{
    if targets < 1 || targets > 4 {
        return Err(Failure::Targets);
    }
    let Ok(geometry) = Geometry::of(geometry.parts()) else {
        return Err(Failure::Geometry);
    };
    let items = items_of(alloc, geometry.parts().optional.is_wide(), numbers)?;
    match draw(alloc, &geometry, targets, items.as_slice()) {
        Ok(picture) => Ok(picture),
        Err(_) => Err(Failure::OutOfMemory),
    }
}

/// Draws a trace on a channel of so many targets of this geometry, legal or not: its picture, an SVG, stands in the buffer.
#[unsafe(no_mangle)]
pub extern "C" fn onfiseq_picture(
    alloc: Global,
    geometry: &OnfiseqGeometry,
    targets: u8,
    items: &[OnfiseqItem],
    picture: &mut [u8],
) -> OnfiseqPlaced
    ensures { Comes (trace_fault (parts_of geometry.now) targets items.now ≡ None) (Fails (trace_fault (parts_of geometry.now) targets items.now)) picture.old picture.new result }
{
    match picture_of(alloc, geometry, targets, items) {
        Ok(svg) => place(svg.as_bytes(), picture),
        Err(failure) => failure.told(),
    }
}
