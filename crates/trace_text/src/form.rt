//! The form of a text.

ghost use Rattle.std.specs.Prelude.{IfOk, IfErr};
ghost use Rattle.std.specs.List.{All};
ghost use Rattle.trace_text.specs.Line.{IsPrintable};
ghost use Rattle.trace_text.specs.Reading.{IsRefusalOf};
ghost use Rattle.trace_text.specs.Forms.{IsTraceText, read_as};

use crate::parsing::parse_in;
use crate::recorded_reading::parse_recorded_in;
use crate::refusal::TraceRefusal;
use nand_geometry::Profile;
use onfi_cycle::Item;
use std::alloc::Allocator;

/// The form of a text.
#[derive(Clone, Copy, Debug, PartialEq, Eq)]
pub enum TraceForm {
    /// One item a line and nothing else, as [`parse_in`] reads it.
    Strict,
    /// With blanks, comments and times, as [`parse_recorded_in`] reads it.
    Recorded,
}

/// The items of a text of this form and this profile, by [`parse_in`] or [`parse_recorded_in`].
pub fn parse_as<A: Allocator>(
    alloc: A,
    text: &str,
    form: TraceForm,
    profile: Profile,
) -> Result<Vec<Item, A>, TraceRefusal>
    ensures ok { IfOk result (λ v. IsTraceText form profile text.now v.items) }
    ensures printable { IfOk result (λ v. All IsPrintable v.items) }
    ensures err { IfErr result (λ e. IsRefusalOf e (read_as form profile text.now)) }
{
    match form {
        TraceForm::Strict => parse_in(alloc, text, profile),
        TraceForm::Recorded => parse_recorded_in(alloc, text, profile),
    }
}
