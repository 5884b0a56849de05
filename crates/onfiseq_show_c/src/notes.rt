//! The notes to a microprogram.
ghost use Rattle.std.specs.Prelude.{◌≡◌, IfOk, IfErr};
ghost use Rattle.target_record.specs.Geometry.{parts_of};
ghost use Rattle.onfiseq_show_c.specs.Shown.{Comes, IsProgram, FailsProgram};

use crate::failure::Failure;
use bus_record::OnfiseqGeometry;
use micro_lint::{Note, lint};
use micro_word::{WordRefusal, read};
use nand_geometry::Geometry;
use placed_bytes::{OnfiseqPlaced, place};
use std::alloc::Global;
use std::fmt;

// Notes, a line each: the code, the word or `-` for the header, and what is wrong and mends it.
#[derive(Clone, Copy)]
struct Lines<'a> {
    notes: &'a [Note],
}

impl fmt::Display for Lines<'_> {
    fn fmt<W: fmt::Write>(&self, f: &mut fmt::Formatter<W>) -> fmt::Result {
        for note in self.notes {
            match note.word() {
                Some(word) => writeln!(f, "{} {word} {note}", note.code())?,
                None => writeln!(f, "{} - {note}", note.code())?,
            }
        }
        Ok(())
    }
}

// The lines of the notes to the program of a word file.
fn lines_of(alloc: Global, geometry: &OnfiseqGeometry, file: &[u8]) -> Result<String, Failure>
    ensures ok { IfOk result (λ v. IsProgram (parts_of geometry.now) file.now) }
    ensures err { IfErr result (FailsProgram (parts_of geometry.now) file.now) }
{
    let Ok(geometry) = Geometry::of(geometry.parts()) else {
        return Err(Failure::Geometry);
    };
    let text = match read(alloc, file) {
        Ok(text) => text,
        Err(WordRefusal::Fault { .. }) => return Err(Failure::File),
        Err(WordRefusal::OutOfMemory) => return Err(Failure::OutOfMemory),
    };
    let Ok(notes) = lint(alloc, &text, &geometry) else {
        return Err(Failure::OutOfMemory);
    };
    match String::format(
        alloc,
        &Lines {
            notes: notes.as_slice(),
        },
    ) {
        Ok(lines) => Ok(lines),
        Err(_) => Err(Failure::OutOfMemory),
    }
}

/// Notes what the author of a microprogram surely didn't mean, though the verifier accepts it for this geometry: a line a note stands in the buffer.
#[unsafe(no_mangle)]
pub extern "C" fn onfiseq_notes(
    alloc: Global,
    geometry: &OnfiseqGeometry,
    file: &[u8],
    notes: &mut [u8],
) -> OnfiseqPlaced
    ensures { Comes (IsProgram (parts_of geometry.now) file.now) (FailsProgram (parts_of geometry.now) file.now) notes.old notes.new result }
{
    match lines_of(alloc, geometry, file) {
        Ok(lines) => place(lines.as_bytes(), notes),
        Err(failure) => failure.told(),
    }
}
