//! The lines that the program writes.
ghost use Rattle.std.specs.Prelude.{◌≡◌, ◌++◌, OnOk};
ghost use Rattle.std.specs.String.{string_bytes};
ghost use Rattle.seq_inputs.specs.Lines.{refusal_line, end_line};

use std::alloc::{AllocError, Allocator};

/// Adds the line of a refusal.
pub fn push_refusal_line<A: Allocator>(
    text: &mut String<A>,
    code: &str,
    number: usize,
) -> Result<(), AllocError>
    ensures { OnOk result (string_bytes text.new ≡ string_bytes text.old ++ refusal_line code.now number) }
{
    writeln!(text, "refused {code} at {number}")
}

/// Adds the line of the code with which a program ended.
pub fn push_end_line<A: Allocator>(text: &mut String<A>, code: u8) -> Result<(), AllocError>
    ensures { OnOk result (string_bytes text.new ≡ string_bytes text.old ++ end_line code) }
{
    writeln!(text, "end {code}")
}
