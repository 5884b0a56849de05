//! A page and a microprogram, read one after the other.
ghost use Rattle.std.specs.Prelude.{◌≡◌, IfOk, IfErr};
ghost use Rattle.seq_inputs.specs.Inputs.{HasPage, HasProgram};
ghost use Rattle.seq_inputs.specs.Stops.{Says};
ghost use Rattle.program_commands.specs.Commands.{ReadRefuses};

use micro_word::Text;
use nand_geometry::Geometry;
use seq_files::Files;
use seq_inputs::{PageFile, Stop, geometry_at, read_file, read_program};
use std::alloc::Allocator;

/// A microprogram, and the geometry of the page for which it was read.
#[derive(Drop)]
pub(crate) struct PagedProgram<A: Allocator> {
    pub(crate) geometry: Geometry,
    /// What its file has.
    pub(crate) bytes: Vec<u8, A>,
    pub(crate) text: Text<A>,
}

/// Reads a page, and then a microprogram, as a word file or an assembly text.
pub(crate) fn read_paged<'p, A: Allocator + Clone, F: Files>(
    alloc: A,
    files: &mut F,
    page: PageFile<'p>,
    input: &'p str,
) -> Result<PagedProgram<A>, Stop<'p, A>>
    ensures page { IfOk result (λ read. HasPage (F.store files.old) page.entry read.geometry) }
    ensures program { IfOk result (λ read. HasProgram (F.store files.old) input.now read.text) }
    ensures err { IfErr result (Says (ReadRefuses (F.store files.old) page.entry input.now)) }
    ensures stays { F.store files.new ≡ F.store files.old }
{
    let geometry = geometry_at(alloc.clone()?, files, page)?;
    let bytes = read_file(alloc.clone()?, files, input)?;
    let text = read_program(alloc, input, bytes.as_slice(), &geometry)?;
    Ok(PagedProgram {
        geometry,
        bytes,
        text,
    })
}
