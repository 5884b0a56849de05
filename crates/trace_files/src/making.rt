//! Making the files of a trace.
ghost use Rattle.std.specs.Prelude.{◌≡◌, ◌≤◌, ◌++◌, List, [], ℕ, IfOk, OnOk, map};
ghost use Rattle.std.specs.List.{All};
ghost use Rattle.std.specs.Option.{option_copied};
ghost use Rattle.seq_files.specs.Store.{made_of};
ghost use Rattle.trace_text.specs.Line.{IsPrintable};
ghost use Rattle.trace_files.specs.Files.{text_at, wave_at, drawing_at, files_of};

use crate::drawing::make_drawing;
use crate::outputs::{Drawing, TraceOutputs};
use nand_geometry::Geometry;
use onfi_cycle::Item;
use seq_files::MadeFile;
use std::alloc::{AllocError, Allocator};
use trace_text::print_bytes;
use trace_wave::write_dump;

// Adds the text of a trace, where a path is given for it.
#[tactic(auto, using(seq_files::proofs::Made::made_pushed))]
fn push_text<'p, A: Allocator + Clone>(
    made: &mut Vec<MadeFile<'p, A>, A>,
    alloc: A,
    items: &[Item],
    path: Option<&'p str>,
) -> Result<(), AllocError>
    requires { All IsPrintable items.now }
    ensures { OnOk result (map made_of made.new.items ≡ map made_of made.old.items ++ text_at (option_copied path.entry) items.now) }
{
    if let Some(path) = path {
        let bytes = print_bytes(alloc, items)?;
        made.push(MadeFile { path, bytes })?;
    }
    Ok(())
}

// Adds the dump of a trace, where a path is given for it.
#[tactic(auto, using(seq_files::proofs::Made::made_pushed))]
fn push_wave<'p, A: Allocator + Clone>(
    made: &mut Vec<MadeFile<'p, A>, A>,
    alloc: A,
    geometry: &Geometry,
    targets: u8,
    items: &[Item],
    path: Option<&'p str>,
) -> Result<(), AllocError>
    requires { targets ≤ 4 }
    ensures { OnOk result (map made_of made.new.items ≡ map made_of made.old.items ++ wave_at (option_copied path.entry) geometry.now targets items.now) }
{
    if let Some(path) = path {
        let bytes = write_dump(alloc, geometry, targets, items)?;
        made.push(MadeFile { path, bytes })?;
    }
    Ok(())
}

// Adds the drawing of a trace, where one is asked for.
#[tactic(auto, using(seq_files::proofs::Made::made_pushed))]
fn push_drawing<'p, A: Allocator + Clone>(
    made: &mut Vec<MadeFile<'p, A>, A>,
    alloc: A,
    geometry: &Geometry,
    targets: u8,
    items: &[Item],
    drawing: Option<Drawing<'p>>,
) -> Result<(), AllocError>
    requires few { targets ≤ 4 }
    requires printable { All IsPrintable items.now }
    ensures { OnOk result ((drawn : List ℕ)
        × (map made_of made.new.items ≡ map made_of made.old.items ++ drawing_at drawing.entry geometry.now targets items.now drawn)) }
{
    if let Some(Drawing { form, path }) = drawing {
        let bytes = make_drawing(alloc, form, geometry, targets, items, &[])?;
        made.push(MadeFile { path, bytes })?;
    }
    Ok(())
}

/// Makes the files that are to be written of a trace on a channel of so many targets of this geometry: its text, its dump and its drawing, those that
/// are asked for. `AllocError` is answered where memory was refused.
pub fn make_files<'p, A: Allocator + Clone>(
    alloc: A,
    geometry: &Geometry,
    targets: u8,
    items: &[Item],
    outputs: TraceOutputs<'p>,
) -> Result<Vec<MadeFile<'p, A>, A>, AllocError>
    requires few { targets ≤ 4 }
    requires printable { All IsPrintable items.now }
    ensures { IfOk result (λ made. (drawn : List ℕ) × (map made_of made.items ≡ files_of outputs.entry geometry.now targets items.now drawn)) }
{
    let mut made = Vec::new(alloc.clone()?);
    push_text(&mut made, alloc.clone()?, items, outputs.text)?;
    push_wave(
        &mut made,
        alloc.clone()?,
        geometry,
        targets,
        items,
        outputs.wave,
    )?;
    push_drawing(&mut made, alloc, geometry, targets, items, outputs.drawing)?;
    Ok(made)
}
