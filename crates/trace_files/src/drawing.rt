//! Drawing a trace.
ghost use Rattle.std.specs.Prelude.{◌≡◌, ◌≤◌, IfOk};
ghost use Rattle.std.specs.List.{All};
ghost use Rattle.trace_text.specs.Line.{IsPrintable};
ghost use Rattle.trace_files.specs.Files.{drawing_of};

use crate::draw_form::DrawForm;
use nand_geometry::Geometry;
use onfi_cycle::Item;
use std::alloc::{AllocError, Allocator};
use trace_page::write_page;
use trace_picture::draw_timed;
use trace_text::print;
use trace_wave::write_dump;

// The page of a trace, which has its text.
fn make_page<A: Allocator + Clone>(
    alloc: A,
    geometry: &Geometry,
    targets: u8,
    items: &[Item],
    times: &[Option<u64>],
) -> Result<Vec<u8, A>, AllocError>
    requires few { targets ≤ 4 }
    requires printable { All IsPrintable items.now }
{
    let text = print(alloc.clone()?, items)?;
    let page = write_page(alloc, geometry, targets, items, times, text.as_str())?;
    Ok(page.into_bytes())
}

/// The bytes of a drawing of a trace on a channel of so many targets of this geometry. A trace needn't be legal. Its items may have times, which a picture
/// shows ([`draw_timed`]). `AllocError` is answered where memory was refused.
pub fn make_drawing<A: Allocator + Clone>(
    alloc: A,
    form: DrawForm,
    geometry: &Geometry,
    targets: u8,
    items: &[Item],
    times: &[Option<u64>],
) -> Result<Vec<u8, A>, AllocError>
    requires few { targets ≤ 4 }
    requires printable { All IsPrintable items.now }
    // A waveform is exactly the dump of the trace.
    ensures { IfOk result (λ bytes. bytes.items ≡ drawing_of form geometry.now targets items.now bytes.items) }
{
    match form {
        DrawForm::Waveform => write_dump(alloc, geometry, targets, items),
        DrawForm::Picture => Ok(draw_timed(alloc, geometry, targets, items, times)?.into_bytes()),
        DrawForm::Page => make_page(alloc, geometry, targets, items, times),
    }
}
