//! The fields of a line, one after another.

ghost use Rattle.std.specs.Prelude.{◌≡◌, [], ◌∷◌, IfOk, IfErr, None};
ghost use Rattle.micro_asm.specs.Line.{fields, one};
ghost use Rattle.run_file.specs.declared.refusal.RunFault.TheVariants.{UnknownLine};

use crate::refusal::RunFault;
use micro_asm::{next_field, one_field};

// A field that must be there, and what stands after it.
pub(crate) fn field(text: &[u8]) -> Result<(&[u8], &[u8]), RunFault>
    ensures ok { IfOk result (λ x. fields text.entry.now ≡ x.0.now ∷ fields x.1.now) }
    ensures none { IfErr result (λ e. fields text.entry.now ≡ []) }
    ensures fault { IfErr result (λ e. e ≡ UnknownLine) }
{
    next_field(text).ok_or(RunFault::UnknownLine)
}

// The last field, which must be the only one.
pub(crate) fn last_field(text: &[u8]) -> Result<&[u8], RunFault>
    ensures ok { IfOk result (λ x. fields text.entry.now ≡ x.now ∷ []) }
    ensures none { IfErr result (λ e. one (fields text.entry.now) ≡ None) }
    ensures fault { IfErr result (λ e. e ≡ UnknownLine) }
{
    one_field(text).ok_or(RunFault::UnknownLine)
}
