//! Writing to an output.
ghost use Rattle.std.specs.Prelude.{◌≡◌, OnOk};
ghost use Rattle.std.specs.Io.KnownBytes.{Appends};

use crate::error::FileError;
use std::io::Write;

/// Writes a text, and all that the output still holds back. A write that a signal interrupts is tried again.
pub fn write_text<W: Write>(output: &mut W, text: &str) -> Result<(), FileError>
    ensures { OnOk result (Appends (W.contents output.old) (W.contents output.new) text.now) }
{
    output.write_all(text.as_bytes())?;
    output.flush()?;
    Ok(())
}
